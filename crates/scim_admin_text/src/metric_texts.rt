//! Prints figures in the text format of Prometheus, version 0.0.4.
ghost use Rattle.std.specs.Prelude.{◌≡◌, ◌++◌, ◌∷◌, [], IfOk, OnOk, codes, map, string_bytes};
ghost use Rattle.scim_admin_text.specs.Figures as spec;

use scim_text::NoMemory;
use std::alloc::Global;

/// What kind of figure a metric is.
#[derive(Clone, Copy, Debug, PartialEq, Eq)]
pub enum MetricKind {
    /// A count that only grows while the server runs.
    Counter,
    /// A value that may grow and shrink.
    Gauge,
}

impl MetricKind {
    /// Returns the word for the kind.
    fn name(self) -> &'static str
        ensures { result.now ≡ spec.kind_name self }
    {
        match self {
            MetricKind::Counter => "counter",
            MetricKind::Gauge => "gauge",
        }
    }
}

/// A text of figures.
#[derive(Drop)]
pub struct MetricTexts {
    alloc: Global,
    text: String,
}

/// Returns the byte after a backslash that stands for the character in the value of a label; `None` if the
/// character stands for itself.
fn escaped(c: char) -> Option<char>
    ensures { result ≡ spec.escaped c }
{
    match c {
        '\\' => Some('\\'),
        '"' => Some('"'),
        '\n' => Some('n'),
        _ => None,
    }
}

/// Appends the value of a label, with backslashes before quotes and backslashes, and `\n` for line feeds.
fn add_value(text: &mut String, value: &str) -> Result<(), NoMemory> {
    for c in value.chars() {
        match escaped(c) {
            Some(code) => {
                text.push('\\')?;
                text.push(code)?;
            }
            None => text.push(c)?,
        }
    }
    Ok(())
}

impl MetricTexts {
    /// Returns an empty text.
    pub fn new(alloc: Global) -> MetricTexts
        ensures { spec.text_of result ≡ [] }
    {
        MetricTexts {
            alloc,
            text: String::new(alloc),
        }
    }

    /// Appends the lines before the values of a metric: what it is, and its kind. `help` has no line feed and
    /// no backslash.
    pub fn begin(&mut self, name: &str, kind: MetricKind, help: &str) -> Result<(), NoMemory>
        ensures { OnOk result (spec.text_of self.new
            ≡ spec.text_of self.old ++ spec.heading name.now kind help.now) }
    {
        let alloc = self.alloc;
        let word = kind.name();
        let heading = format!(in alloc; "# HELP {name} {help}\n# TYPE {name} {word}\n")?;
        Ok(self.text.push_str(heading.as_str())?)
    }

    /// Appends a value of a metric without labels.
    pub fn add(&mut self, name: &str, value: u64) -> Result<(), NoMemory>
        ensures { OnOk result (spec.text_of self.new
            ≡ spec.text_of self.old ++ spec.sample name.now value) }
    {
        let alloc = self.alloc;
        let sample = format!(in alloc; "{name} {value}\n")?;
        Ok(self.text.push_str(sample.as_str())?)
    }

    /// Appends a metric that has one value without labels.
    pub fn metric(
        &mut self,
        name: &str,
        kind: MetricKind,
        help: &str,
        value: u64,
    ) -> Result<(), NoMemory>
        ensures { OnOk result (spec.text_of self.new ≡ spec.text_of self.old
            ++ (spec.heading name.now kind help.now ++ spec.sample name.now value)) }
    {
        self.begin(name, kind, help)?;
        self.add(name, value)
    }

    /// Appends a value of a metric with labels, each a name and a value.
    pub fn add_labelled(
        &mut self,
        name: &str,
        labels: &[(&str, &str)],
        value: u64,
    ) -> Result<(), NoMemory> {
        let alloc = self.alloc;
        self.text.push_str(name)?;
        let mut before = "{";
        for (label, content) in labels {
            self.text.push_str(before)?;
            self.text.push_str(label)?;
            self.text.push_str("=\"")?;
            add_value(&mut self.text, content)?;
            self.text.push_str("\"")?;
            before = ",";
        }
        let end = format!(in alloc; "}} {value}\n")?;
        Ok(self.text.push_str(end.as_str())?)
    }

    /// Appends a metric of seconds, given in nanoseconds, which has one value without labels.
    pub fn seconds(
        &mut self,
        name: &str,
        kind: MetricKind,
        help: &str,
        nanos: u64,
    ) -> Result<(), NoMemory> {
        self.begin(name, kind, help)?;
        let alloc = self.alloc;
        let seconds = nanos / 1_000_000_000;
        let rest = nanos % 1_000_000_000;
        let sample = format!(in alloc; "{name} {seconds}.{rest:09}\n")?;
        Ok(self.text.push_str(sample.as_str())?)
    }

    /// Returns the text.
    pub fn finish(self) -> String
        ensures { string_bytes result ≡ spec.text_of self }
    {
        let MetricTexts { alloc: _, text } = self;
        text
    }
}
