//! Why the command `estimate`, `digest` or `fleet` wasn't done.
use command_terms::{CommandEnd, DigestSource, EstimateWords, FleetWords, ImageCause};
use digest_text::{LineFault, ReadFault, WriteFault};
use fleet_census::FleetFault;
use fleet_hosts::{ListCause, ListFault};
use live_memory::LiveFault;
use memory_images::{FormFault, ImageFault};
use report_text::PlainName;
use std::alloc::{AllocError, AllocFailed};
use std::fmt::{self, Display, Formatter};
use std::io;

/// What is at fault.
#[derive(Debug, Drop)]
pub enum Cause {
    /// The system refused, for this reason.
    System(io::Error),
    /// The file of an image doesn't have a form that can be read.
    Form(FormFault),
    /// An image, or all of them, for this cause.
    Image(ImageCause),
    /// A process's memory.
    Process(LiveFault),
    /// A line of a digest.
    Line(LineFault),
    /// The digests don't go together.
    Fleet(FleetFault),
    /// A line of a list of hosts.
    Hosts(u64, ListCause),
    /// There is no digest.
    NoDigest,
    /// A digest can't be read twice.
    ReadOnce,
}

/// What a fault is about.
#[derive(Clone, Copy, Debug)]
pub enum Subject<'a> {
    /// The file at this path, or what stands for it.
    File(&'a str),
    /// The process with this number.
    Process(u32),
    /// Standard output.
    Output,
}

/// A fault of a file, a process or the output, or of the guests from the first one on.
#[derive(Debug, Drop)]
pub struct CommandFault<'a> {
    subject: Subject<'a>,
    /// How many more guests the fault is about.
    others: usize,
    cause: Cause,
}

impl<'a> CommandFault<'a> {
    /// Makes the fault of one subject.
    pub fn of(subject: Subject<'a>, cause: Cause) -> CommandFault<'a> {
        CommandFault {
            subject,
            others: 0,
            cause,
        }
    }

    /// Makes the fault of one file.
    pub fn of_file(path: &'a str, cause: Cause) -> CommandFault<'a> {
        CommandFault::of(Subject::File(path), cause)
    }

    /// Makes the fault of one guest of an estimate.
    pub fn of_guest(words: &EstimateWords<'a>, guest: usize, cause: Cause) -> CommandFault<'a> {
        CommandFault::of(Subject::of_guest(words, guest), cause)
    }

    /// Makes the fault of all guests of an estimate together.
    pub fn of_estimate(words: &EstimateWords<'a>, cause: Cause) -> CommandFault<'a> {
        CommandFault {
            subject: Subject::of_guest(words, 0),
            others: words.others(),
            cause,
        }
    }

    /// Makes the fault of all digests together.
    pub fn of_fleet(words: &FleetWords<'a>, cause: Cause) -> CommandFault<'a> {
        CommandFault {
            subject: Subject::File(words.digest_of(0)),
            others: words.others(),
            cause,
        }
    }
}

/// Reports a fault in a line on standard error, and returns how the command ended.
pub fn report_fault(
    rt: &impl Eprint,
    done: Result<(), CommandFault<'_>>,
) -> io::Result<CommandEnd> {
    let end = CommandEnd::of(&done);
    if let Err(fault) = done {
        eprintln!(rt; "{fault}")?;
    }
    Ok(end)
}

impl<'a> Subject<'a> {
    /// Returns what a guest of an estimate was read from.
    fn of_guest(words: &EstimateWords<'a>, guest: usize) -> Subject<'a> {
        match words.process_of(guest) {
            Some(pid) => Subject::Process(pid),
            None => Subject::File(words.image_of(guest)),
        }
    }
}

impl<'a> From<DigestSource<'a>> for Subject<'a> {
    fn from(source: DigestSource<'a>) -> Subject<'a> {
        match source {
            DigestSource::Image(path) => Subject::File(path),
            DigestSource::Process(pid) => Subject::Process(pid),
        }
    }
}

impl Display for Subject<'_> {
    fn fmt<W: fmt::Write>(&self, f: &mut Formatter<W>) -> fmt::Result {
        match self {
            Subject::File(path) => {
                let name = PlainName(path);
                write!(f, "{name}")
            }
            Subject::Process(pid) => write!(f, "process {pid}"),
            Subject::Output => f.write_str("standard output"),
        }
    }
}

impl Display for CommandFault<'_> {
    fn fmt<W: fmt::Write>(&self, f: &mut Formatter<W>) -> fmt::Result {
        let subject = &self.subject;
        write!(f, "{subject}")?;
        if self.others > 0 {
            let others = self.others;
            write!(f, " and {others} more")?;
        }
        let cause = &self.cause;
        write!(f, ": {cause}")
    }
}

impl Display for Cause {
    fn fmt<W: fmt::Write>(&self, f: &mut Formatter<W>) -> fmt::Result {
        match self {
            Cause::System(error) => write!(f, "{error}"),
            Cause::Form(form) => write!(f, "{form}"),
            Cause::Image(cause) => write!(f, "{cause}"),
            Cause::Process(fault) => write!(f, "{fault}"),
            Cause::Line(fault) => write!(f, "{fault}"),
            Cause::Fleet(fault) => write!(f, "{fault}"),
            Cause::Hosts(line, cause) => write!(f, "line {line}: {cause}"),
            Cause::NoDigest => f.write_str("no digest"),
            Cause::ReadOnce => f.write_str(
                "for numbers by host give a file, which can be read twice",
            ),
        }
    }
}

impl From<io::Error> for Cause {
    fn from(error: io::Error) -> Cause {
        if error.kind() == io::ErrorKind::OutOfMemory {
            Cause::Image(ImageCause::OutOfMemory)
        } else {
            Cause::System(error)
        }
    }
}

impl From<AllocError> for Cause {
    fn from(_refused: AllocError) -> Cause {
        Cause::Image(ImageCause::OutOfMemory)
    }
}

impl<T: Drop> From<AllocFailed<T>> for Cause {
    fn from(_refused: AllocFailed<T>) -> Cause {
        Cause::Image(ImageCause::OutOfMemory)
    }
}

impl From<ImageFault<io::Error>> for Cause {
    fn from(fault: ImageFault<io::Error>) -> Cause {
        match fault {
            ImageFault::OutOfMemory => Cause::from(AllocError),
            ImageFault::Read(error) => Cause::from(error),
            ImageFault::Form(form) => Cause::Form(form),
        }
    }
}

impl From<LiveFault> for Cause {
    fn from(fault: LiveFault) -> Cause {
        Cause::Process(fault)
    }
}

impl From<memory_pages::ReadFault<io::Error>> for Cause {
    fn from(fault: memory_pages::ReadFault<io::Error>) -> Cause {
        match fault {
            memory_pages::ReadFault::OutOfMemory => Cause::from(AllocError),
            memory_pages::ReadFault::Read(error) => Cause::from(error),
        }
    }
}

impl From<WriteFault> for Cause {
    fn from(fault: WriteFault) -> Cause {
        match fault {
            WriteFault::OutOfMemory => Cause::from(AllocError),
            WriteFault::Write(error) => Cause::from(error),
        }
    }
}

impl From<ReadFault> for Cause {
    fn from(fault: ReadFault) -> Cause {
        match fault {
            ReadFault::OutOfMemory => Cause::from(AllocError),
            ReadFault::Read(error) => Cause::from(error),
            ReadFault::Line(line) => Cause::Line(line),
        }
    }
}

impl From<ListFault> for Cause {
    fn from(fault: ListFault) -> Cause {
        match fault {
            ListFault::OutOfMemory => Cause::from(AllocError),
            ListFault::Line(line, cause) => Cause::Hosts(line, cause),
        }
    }
}

impl From<FleetFault> for Cause {
    fn from(fault: FleetFault) -> Cause {
        match fault {
            FleetFault::OutOfMemory => Cause::from(AllocError),
            FleetFault::Read(_, error) => Cause::from(error),
            FleetFault::Line(_, line) => Cause::Line(line),
            FleetFault::TooManyDigests => Cause::Fleet(fault),
            FleetFault::TooManyPages => Cause::Fleet(fault),
            FleetFault::OtherSample(_) => Cause::Fleet(fault),
        }
    }
}
