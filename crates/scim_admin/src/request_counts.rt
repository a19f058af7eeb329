//! How many requests there were, by client, operation and decision.
use scim_admin_text::MetricTexts;
use scim_audit::Decided;
use scim_schema::Op;
use scim_text::NoMemory;
use std::alloc::Global;
use std::collections::BTreeMap;

/// How many requests of a client had an operation and a decision.
#[derive(Clone, Copy)]
struct Count {
    op: Op,
    decided: Decided,
    count: u64,
}

/// How many requests of one client there were, by operation and decision.
#[derive(Drop)]
struct ClientCounts {
    counts: Vec<Count>,
}

impl ClientCounts {
    /// Makes room for one more combination of operation and decision.
    fn prepare(&mut self) -> Result<(), NoMemory> {
        Ok(self.counts.reserve(1)?)
    }

    /// Counts a request. Doesn't allocate after `prepare`.
    fn count(&mut self, op: Op, decided: Decided) {
        for index in 0..self.counts.len() {
            let entry = &mut self.counts[index];
            if entry.op == op && entry.decided == decided {
                entry.count = entry.count.saturating_add(1);
                return;
            }
        }
        let _added = self.counts.push(Count {
            op,
            decided,
            count: 1,
        });
    }

    /// Appends a figure for each combination of operation and decision.
    fn add_to(&self, texts: &mut MetricTexts, client: &str) -> Result<(), NoMemory> {
        for entry in &self.counts {
            texts.add_labelled(
                "scimd_requests_total",
                &[
                    ("client", client),
                    ("op", entry.op.name()),
                    ("outcome", entry.decided.name()),
                ],
                entry.count,
            )?;
        }
        Ok(())
    }
}

/// How many requests there were, by client, operation and decision.
#[derive(Drop)]
pub(crate) struct RequestCounts {
    alloc: Global,
    by_client: BTreeMap<String, ClientCounts>,
}

impl RequestCounts {
    /// Returns counts of no requests.
    pub(crate) fn new(alloc: Global) -> RequestCounts {
        RequestCounts {
            alloc,
            by_client: BTreeMap::new(alloc),
        }
    }

    /// Makes room for the counts of a client, so that `count` doesn't allocate.
    pub(crate) fn prepare(&mut self, client: &str) -> Result<(), NoMemory> {
        if let Some(counts) = self.by_client.get_mut(client) {
            return counts.prepare();
        }
        let mut counts = ClientCounts {
            counts: Vec::new(self.alloc),
        };
        counts.prepare()?;
        let name = String::from_str(self.alloc, client)?;
        self.by_client.insert(name, counts)?;
        Ok(())
    }

    /// Counts a request of a client for which `prepare` made room.
    pub(crate) fn count(&mut self, client: &str, op: Op, decided: Decided) {
        if let Some(counts) = self.by_client.get_mut(client) {
            counts.count(op, decided);
        }
    }

    /// Appends a figure for each client, operation and decision.
    pub(crate) fn add_to(&self, texts: &mut MetricTexts) -> Result<(), NoMemory> {
        for (client, counts) in &self.by_client {
            counts.add_to(texts, client.as_str())?;
        }
        Ok(())
    }
}
