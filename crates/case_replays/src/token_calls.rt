//! The calls of the command `token`.
use crate::command_calls::{line_and_status, words};
use case_values::{Case, CaseFault, said};
use clap::ArgMatches;
use scim_command::{command, print_new_token};
use std::alloc::Global;
use std::io;
use std::io::ErrorKind;
use std::random::RandomSource;

/// A source that fills a buffer with one byte, or fails if it has none.
#[derive(Clone, Copy)]
struct OneByte(Option<u8>);

impl RandomSource for OneByte {
    fn fill_bytes(&self, buffer: &mut [u8]) -> io::Result<()> {
        match self.0 {
            Some(byte) => {
                buffer.fill(byte);
                Ok(())
            }
            None => Err(io::Error::new(ErrorKind::Other, "no bytes")),
        }
    }
}

/// Runs `token` for the command line in the list `words`, over a source that has no bytes. Returns the output, or the
/// line of the error.
pub(crate) fn no_random_bytes(case: &Case<'_>) -> Result<String, CaseFault> {
    let words = words(case)?;
    let command = command(case.alloc)?;
    let Ok(matches) = command.try_get_matches_from(words.as_slice()) else {
        return said(case.alloc, "no command");
    };
    match matches.subcommand() {
        Some((_, matches)) => token_lines(case.alloc, None, matches),
        None => said(case.alloc, "no command"),
    }
}

/// Runs `token` over a source that has only this byte, or none. Returns the output, or the line of the error.
pub(crate) fn token_lines(
    alloc: Global,
    byte: Option<u8>,
    matches: &ArgMatches<'_>,
) -> Result<String, CaseFault> {
    let mut written = Vec::new(alloc);
    match print_new_token(&(OneByte(byte), alloc), matches, &mut written) {
        Ok(()) => said(
            alloc,
            str::from_utf8(written.as_slice()).unwrap_or("no UTF-8"),
        ),
        Err(fault) => line_and_status(alloc, &fault),
    }
}
