//! What is told of long work, on standard error. No contract speaks of it.

use super::FILE_LIMIT;
use call_words::{Command, read_words};
use in2d_reader::{SegmentRow, read_in2d};
use mesh_run::Gate;
use std::alloc::{AllocError, Global};
use std::fs;
use std::io::{IsTerminal, Read, Write};
use std::sync::atomic::{AtomicU64, Ordering};
use std::time::Instant;

/// How many seconds the work goes on before anything is told.
const SILENCE: u64 = 1;

/// The greatest number of a domain.
const LAST_DOMAIN: u32 = 64;

/// The gate that tells a person which domain begins, where standard error is a terminal and the work has
/// gone on for a second.
#[derive(Drop)]
pub struct Progress<'a> {
    rt: &'a HostRuntime,
    /// When the work began, where anything is told.
    began: Option<Instant>,
    /// How many domains there are, where that is known.
    count: Option<u64>,
    /// How many domains have begun.
    begun: AtomicU64,
}

impl<'a> Progress<'a> {
    /// The gate of a call with these words, whose work begins now.
    pub fn new(rt: &'a HostRuntime, words: &[String]) -> Progress<'a> {
        let (began, count) = if rt.stderr().is_terminal() {
            (Instant::now(rt).ok(), domain_count(rt, words))
        } else {
            (None, None)
        };
        Progress {
            rt,
            began,
            count,
            begun: AtomicU64::new(0),
        }
    }

    /// Whether the work has gone on for long.
    fn is_long(&self) -> bool {
        match &self.began {
            None => false,
            Some(began) => match began.elapsed(self.rt) {
                Ok(gone) => gone.as_secs() >= SILENCE,
                Err(_) => false,
            },
        }
    }
}

impl<'a> Gate for Progress<'a> {
    fn enter(&self, domain: u32) {
        let before = self.begun.fetch_add(1, Ordering::SeqCst);
        if self.is_long() {
            if let Ok(line) = line_of(self.rt.alloc(), domain, before, self.count) {
                let _ = self.rt.stderr().write_all(line.as_bytes());
            }
        }
    }
}

/// The line that tells that a domain begins, after so many others.
fn line_of(
    alloc: Global,
    domain: u32,
    before: u64,
    count: Option<u64>,
) -> Result<String, AllocError> {
    match count {
        Some(count) if before < count => {
            let number = before + 1;
            format!(in alloc; "netmesh: domain {domain} begins, {number} of {count}\n")
        }
        _ => format!(in alloc; "netmesh: domain {domain} begins; before it {before} began\n"),
    }
}

/// How many domains a call with these words meshes. The geometry is read once more for this: where it is no
/// plain file, which may give its bytes once only, or no geometry, the number isn't known.
fn domain_count(rt: &HostRuntime, words: &[String]) -> Option<u64> {
    match read_words(rt.alloc(), words).ok()?.ok()? {
        Command::Mesh(call) => {
            let bytes = plain_bytes(rt, call.geometry)?;
            let read = read_in2d(rt.alloc(), &bytes).ok()?;
            Some(named_domains(read.segments.as_slice()))
        }
        Command::Gen { squares, .. } => Some(squares.saturating_mul(squares)),
        _ => None,
    }
}

/// The bytes of a plain file, up to the limit of a geometry.
fn plain_bytes(rt: &HostRuntime, name: &str) -> Option<Vec<u8>> {
    if !fs::metadata(rt, name).ok()?.is_file() {
        return None;
    }
    let mut bytes = Vec::new(rt.alloc());
    let file = fs::open(rt, name).ok()?;
    file.take(FILE_LIMIT).read_to_end(&mut bytes).ok()?;
    Some(bytes)
}

/// How many domains these segments name.
fn named_domains(segments: &[SegmentRow]) -> u64 {
    let mut count: u64 = 0;
    for domain in 1..=LAST_DOMAIN {
        if segments
            .iter()
            .any(|row| row.left == domain || row.right == domain)
        {
            count = count.saturating_add(1);
        }
    }
    count
}
