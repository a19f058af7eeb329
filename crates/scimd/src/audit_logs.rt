//! The file of the audit log.
use scim_line_log::LineLog;
use std::fs::{File, OpenOptions};
use std::io;
use std::io::{Read, Seek, SeekFrom};
use std::os::fd::AsRawFd;
use std::os::unix::fs::OpenOptionsExt;
use std::time::{Duration, Instant};

/// The greatest descriptor of the standard streams.
const LAST_STANDARD_STREAM: i32 = 2;

/// The seconds between two lines about lost lines of the audit log, at least.
const PAUSE: u64 = 60;

/// A file to which the line of each row of the audit is appended. A line that can't be written is lost, and nothing
/// waits for it.
#[derive(Drop)]
pub(crate) struct AuditLog {
    lines: LineLog<File>,
    // The number of lines that were lost, 2^64 - 1 at most, and when it was last told.
    lost: u64,
    told_at: Option<Instant>,
}

impl AuditLog {
    /// Opens the audit log at a path. Creates the file, with mode 600, if it doesn't exist. If the file ends within
    /// a line, as after a crash, that line is ended first.
    pub(crate) fn open(rt: &HostRuntime, path: &str) -> io::Result<AuditLog> {
        let mut file = open_to_append(rt, path)?;
        let is_whole = ends_with_line_feed(&mut file);
        let mut lines = LineLog::new(rt.alloc(), file);
        if !is_whole {
            let _is_accepted = lines.append("");
        }
        Ok(AuditLog {
            lines,
            lost: 0,
            told_at: None,
        })
    }

    /// Appends a line, given without its line feed. If it is lost, counts it, and tells the operator how many are,
    /// at most once a minute.
    pub(crate) fn append(&mut self, rt: &HostRuntime, line: &str) {
        if !self.lines.append(line) {
            self.lost = self.lost.saturating_add(1);
            self.tell_lost(rt);
        }
    }

    /// Tells the operator how many lines were lost, unless that was told less than a minute ago.
    fn tell_lost(&mut self, rt: &HostRuntime) {
        let Ok(now) = Instant::now(rt) else {
            return;
        };
        let is_time = match self.told_at {
            Some(last) => now.duration_since(last) >= Duration::from_secs(PAUSE),
            None => true,
        };
        if is_time {
            self.told_at = Some(now);
            let lost = self.lost;
            let _printed = eprintln!(rt; "scimd: audit log: cannot write, lines lost: {lost}");
        }
    }
}

/// Opens a file for appending, and creates it, with mode 600, if it doesn't exist. The file doesn't take the place
/// of a standard stream that was closed, for which other lines are meant.
fn open_to_append(rt: &HostRuntime, path: &str) -> io::Result<File> {
    let file = OpenOptions::new()
        .read(true)
        .append(true)
        .create(true)
        .mode(0o600)
        .open(rt, path)?;
    if file.as_raw_fd() <= LAST_STANDARD_STREAM {
        return file.try_clone();
    }
    Ok(file)
}

/// Whether the file is empty, ends with a line feed, or can't be read from its end, as a pipe.
fn ends_with_line_feed(file: &mut File) -> bool {
    if file.seek(SeekFrom::End(-1)).is_err() {
        return true;
    }
    let mut last = [b'\n'];
    match file.read(&mut last) {
        Ok(_) => last[0] == b'\n',
        Err(_) => true,
    }
}
