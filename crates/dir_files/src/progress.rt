//! Progress: a line on standard error that tells how far a long run is, where that is a terminal and the run is in its
//! foreground.

ghost use Rattle.std.specs.Prelude.{◌≡◌, ◌+◌, ◌/◌, ◌<◌, ◌≤◌, ◌↔◌, IfOk, IsTrue, MatchOption, None, SomeIff, length, min};
ghost use Rattle.std.specs.Io.KnownBytes.{WriteAppends};
ghost use Rattle.dir_ldif.specs.Device.{Counts};

use crate::devices::write_at_most;
use crate::escape::{show_char, show_escaped};
use crate::foreground::is_in_background;
use dir_ldif::{DeviceFault, Sink, Source};
use std::alloc::Global;
use std::cell::Cell;
use std::fmt;
use std::io::{IsTerminal, Stderr};
use std::rt::Env;

/// How many bytes are read or written before the line is written again.
const STEP: usize = 8 * 1024 * 1024;

/// How many characters of a path are shown: those at its end.
const LONGEST_PATH: usize = 40;

/// The bytes of a megabyte.
const MEGABYTE: u64 = 1_000_000;

/// Brings a terminal to the beginning of the line, and erases the line.
const ERASE: &str = "\r\x1b[K";

/// Has a terminal cut a line that is too long for it, since only the last row of one that is wrapped could be erased.
const CUT: &str = "\x1b[?7l";

/// Has a terminal wrap lines again.
const WRAP: &str = "\x1b[?7h";

/// The line of progress. A text of it that can't be written is left out: it changes nothing of a run.
#[derive(Drop)]
pub struct ProgressLine {
    rt: HostRuntime,
    err: Stderr,
    is_terminal: bool,
    // Whether a text of it is to be seen.
    is_shown: Cell<bool>,
}

impl ProgressLine {
    pub fn new(rt: &HostRuntime) -> ProgressLine {
        let err = rt.stderr();
        ProgressLine {
            rt: *rt,
            err,
            is_terminal: err.is_terminal() && !is_dumb(rt),
            is_shown: Cell::new(false),
        }
    }

    /// Erases the line, if there is one. It comes before anything else is printed.
    pub fn clear(&self) {
        if self.is_shown.replace(false) && !is_in_background(&self.rt) {
            let _ = eprint!(self.err; "{ERASE}");
        }
    }

    /// Says that the changes are to be typed.
    fn ask_for_changes(&self) {
        self.clear();
        let _ = eprintln!(self.err; "slapkit: reading changes from the terminal; end with Ctrl-D");
    }

    /// Writes the line, over the one that is there, unless the terminal is another run's by now.
    fn show(&self, progress: &Progress<'_>) {
        self.is_shown
            .set(self.is_terminal && !is_in_background(&self.rt));
        if self.is_shown.get() {
            let _ = eprint!(self.err; "{ERASE}{CUT}slapkit: {progress}{WRAP}");
        }
    }

    /// Writes the line over the one that is there, if there is one.
    pub fn update(&self, progress: &Progress<'_>) {
        if self.is_shown.get() {
            self.show(progress);
        }
    }
}

/// Whether the terminal is said to know no control sequences.
fn is_dumb(rt: &HostRuntime) -> bool {
    let mut name = [0u8; 8];
    match rt.var("TERM", &mut name) {
        Ok(n) => matches!(&name[..n], b"dumb"),
        Err(_) => false,
    }
}

/// What a run does with a text.
#[derive(Clone, Copy, PartialEq, Eq, Debug)]
pub enum Doing {
    Reading,
    /// It has come to the text's end.
    HasRead,
    Writing,
    Syncing,
}

impl Doing {
    fn as_str(self) -> &'static str {
        match self {
            Doing::Reading => "reading",
            Doing::HasRead => "read",
            Doing::Writing => "writing",
            Doing::Syncing => "syncing",
        }
    }
}

/// How much of a text was read or written, in bytes, and the text's size where it is known.
#[derive(Clone, Copy, PartialEq, Eq, Debug)]
pub struct Amount {
    pub done: u64,
    pub size: Option<u64>,
}

impl Amount {
    /// Counts further bytes, and answers whether they fill a step.
    pub fn add(&mut self, n: usize) -> bool
        ensures done { self.new.done ≡ min (self.old.done + n) u64.MAX }
        ensures size { self.new.size ≡ self.old.size }
        ensures full { IsTrue result ↔ (self.old.done / STEP < self.new.done / STEP) }
    {
        let before = self.done / STEP as u64;
        self.done = self.done.saturating_add(n as u64);
        before < self.done / STEP as u64
    }

    /// The size, unless more than that was read: then the file has grown, and its size is another one.
    pub fn total(&self) -> Option<u64>
        ensures { MatchOption self.now.size (result ≡ None) (λ size. SomeIff result (self.now.done ≤ size) size) }
    {
        match self.size {
            Some(size) if self.done <= size => Some(size),
            _ => None,
        }
    }
}

impl fmt::Display for Amount {
    fn fmt<W: fmt::Write>(&self, f: &mut fmt::Formatter<W>) -> fmt::Result {
        let done = self.done / MEGABYTE;
        match self.total() {
            Some(size) if size >= MEGABYTE => write!(f, ", {done} of {} MB", size / MEGABYTE),
            None if done > 0 => write!(f, ", {done} MB"),
            _ => Ok(()),
        }
    }
}

/// What is done with a text, and how far it is.
#[derive(Clone, Copy, PartialEq, Eq, Debug)]
pub struct Progress<'a> {
    pub doing: Doing,
    pub path: &'a str,
    pub amount: Amount,
}

impl<'a> Progress<'a> {
    /// A file is synced.
    pub fn syncing(path: &'a str) -> Progress<'a>
        ensures { result ≡ record { doing = Doing.Syncing; path = path.entry; amount = record { done = 0; size = None } } }
    {
        Progress {
            doing: Doing::Syncing,
            path,
            amount: Amount {
                done: 0,
                size: None,
            },
        }
    }
}

impl fmt::Display for Progress<'_> {
    fn fmt<W: fmt::Write>(&self, f: &mut fmt::Formatter<W>) -> fmt::Result {
        f.write_str(self.doing.as_str())?;
        f.write_str(" ")?;
        show_end(f, self.path)?;
        self.amount.fmt(f)
    }
}

/// Shows a path, or the end of a long one. Its control characters are escaped.
fn show_end<W: fmt::Write>(f: &mut fmt::Formatter<W>, path: &str) -> fmt::Result {
    let length = path.chars().count();
    if length <= LONGEST_PATH {
        return show_escaped(f, path);
    }
    f.write_str("...")?;
    for c in path.chars().skip(length - LONGEST_PATH) {
        show_char(f, c)?;
    }
    Ok(())
}

/// Tells on the line how far a text is.
#[derive(Drop)]
struct Gauge<'a> {
    line: &'a ProgressLine,
    path: String,
    amount: Amount,
}

impl<'a> Gauge<'a> {
    /// None where no line is to be seen, nor where memory for the path is refused: the run goes on without.
    fn new(
        line: &'a ProgressLine,
        alloc: Global,
        path: &str,
        size: Option<u64>,
    ) -> Option<Gauge<'a>> {
        if !line.is_terminal {
            return None;
        }
        let path = String::from_str(alloc, path).ok()?;
        let amount = Amount { done: 0, size };
        Some(Gauge { line, path, amount })
    }

    fn progress(&self, doing: Doing) -> Progress<'_> {
        Progress {
            doing,
            path: self.path.as_str(),
            amount: self.amount,
        }
    }

    /// The text is begun: where a line is there, it is of another one.
    fn begin(&self, doing: Doing) {
        if self.amount.done == 0 {
            self.line.update(&self.progress(doing));
        }
    }

    /// Some more of the text is done.
    fn count(&mut self, doing: Doing, n: usize) {
        if self.amount.add(n) {
            self.line.show(&self.progress(doing));
        }
    }

    /// All of the text is done.
    fn end(&self, doing: Doing) {
        self.line.update(&self.progress(doing));
    }
}

/// What is told of a text that is read.
#[derive(Drop)]
enum Told<'a> {
    Nothing,
    /// That it is to be typed, before it is read.
    Request(&'a ProgressLine),
    Progress(Gauge<'a>),
}

impl Told<'_> {
    fn before_read(&mut self) {
        match self {
            Told::Nothing => {}
            Told::Request(line) => {
                line.ask_for_changes();
                *self = Told::Nothing;
            }
            Told::Progress(gauge) => gauge.begin(Doing::Reading),
        }
    }

    fn after_read(&mut self, n: usize) {
        if let Told::Progress(gauge) = self {
            if n == 0 {
                gauge.end(Doing::HasRead);
            } else {
                gauge.count(Doing::Reading, n);
            }
        }
    }
}

/// A source that tells how far it is read.
#[derive(Drop)]
pub struct TellingReader<'a, S> {
    inner: S,
    told: Told<'a>,
}

impl<'a, S: Source> TellingReader<'a, S> {
    /// The text at this path, of this size if that is known.
    pub fn new(
        inner: S,
        line: &'a ProgressLine,
        alloc: Global,
        path: &str,
        size: Option<u64>,
    ) -> TellingReader<'a, S>
        ensures left { ⟦<TellingReader<'a, S> as Source>⟧.left result ≡ S.left inner }
        ensures failures { ⟦<TellingReader<'a, S> as Source>⟧.failures result ≡ S.failures inner }
    {
        let told = match Gauge::new(line, alloc, path, size) {
            Some(gauge) => Told::Progress(gauge),
            None => Told::Nothing,
        };
        TellingReader { inner, told }
    }

    /// Changes that are typed. They are asked for once, before the first is read.
    pub fn typed(inner: S, line: &'a ProgressLine) -> TellingReader<'a, S>
        ensures left { ⟦<TellingReader<'a, S> as Source>⟧.left result ≡ S.left inner }
        ensures failures { ⟦<TellingReader<'a, S> as Source>⟧.failures result ≡ S.failures inner }
    {
        TellingReader {
            inner,
            told: Told::Request(line),
        }
    }

    pub fn inner(&self) -> &S
        ensures failures { S.failures result.now ≡ ⟦<TellingReader<'a, S> as Source>⟧.failures self.now }
    {
        &self.inner
    }
}

impl<S: Source> Source for TellingReader<'_, S> {
    ghost left = { λ s. S.left s.inner };

    ghost failures = { λ s. S.failures s.inner };

    ghost is_same = { λ s t. S.is_same s.inner t.inner };

    ghost same_refl = { λ s. S.same_refl s.inner };

    ghost same_trans = { λ s t u. S.same_trans s.inner t.inner u.inner };

    fn read(&mut self, buffer: &mut [u8]) -> Result<usize, DeviceFault> {
        self.told.before_read();
        let answer = self.inner.read(buffer);
        if let Ok(n) = answer {
            self.told.after_read(n);
        }
        answer
    }
}

/// A sink that tells how much was written, of which it takes at most a step at once.
#[derive(Drop)]
pub struct TellingWriter<'a, W> {
    inner: W,
    gauge: Option<Gauge<'a>>,
}

impl<'a, W: Sink> TellingWriter<'a, W> {
    /// The text of the file that is made at this path.
    pub fn new(inner: W, line: &'a ProgressLine, alloc: Global, path: &str) -> TellingWriter<'a, W>
        ensures taken { ⟦<TellingWriter<'a, W> as Sink>⟧.taken result ≡ W.taken inner }
        ensures failures { ⟦<TellingWriter<'a, W> as Sink>⟧.failures result ≡ W.failures inner }
    {
        TellingWriter {
            inner,
            gauge: Gauge::new(line, alloc, path, None),
        }
    }

    pub fn inner(&self) -> &W
        ensures taken { W.taken result.now ≡ ⟦<TellingWriter<'a, W> as Sink>⟧.taken self.now }
        ensures failures { W.failures result.now ≡ ⟦<TellingWriter<'a, W> as Sink>⟧.failures self.now }
    {
        &self.inner
    }
}

impl<W: Sink> Sink for TellingWriter<'_, W> {
    ghost taken = { λ s. W.taken s.inner };

    ghost failures = { λ s. W.failures s.inner };

    ghost may_stall = { λ s. W.may_stall s.inner };

    ghost is_flushed = { λ s. W.is_flushed s.inner };

    fn write(&mut self, bytes: &[u8]) -> Result<usize, DeviceFault> {
        if let Some(gauge) = &self.gauge {
            gauge.begin(Doing::Writing);
        }
        let answer = write_at_most(&mut self.inner, bytes, STEP);
        if let (Some(gauge), Ok(n)) = (&mut self.gauge, answer) {
            gauge.count(Doing::Writing, n);
        }
        answer
    }

    fn flush(&mut self) -> Result<(), DeviceFault> {
        if let Some(gauge) = &self.gauge {
            gauge.end(Doing::Writing);
        }
        self.inner.flush()
    }
}
