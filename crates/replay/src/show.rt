//! What a replay prints.
use board::Board;
use checks::Refusal;
use meaning::WordRead;
use places::Place;
use settings::Settings;
use std::fmt::{self, Display};

// What a call answers, or its refusal with number and place.
#[derive(Drop)]
pub(crate) struct Answered<T>(pub(crate) Result<T, Refusal>);

impl<T: Display> Display for Answered<T> {
    fn fmt<W: fmt::Write>(&self, f: &mut fmt::Formatter<W>) -> fmt::Result {
        match &self.0 {
            Ok(answer) => write!(f, "{answer}"),
            Err(refusal) => write!(f, "refused {} {}", refusal.reason.number(), refusal.place),
        }
    }
}

// What a word means: its limits or its flag.
#[derive(Clone, Copy)]
pub(crate) struct Meaning(pub(crate) WordRead);

impl Display for Meaning {
    fn fmt<W: fmt::Write>(&self, f: &mut fmt::Formatter<W>) -> fmt::Result {
        match self.0 {
            WordRead::Ordinary { low, high } => write!(f, "{low}..{high}"),
            WordRead::Saturated(sample) => write!(f, "sat {sample}"),
            WordRead::Negative => write!(f, "neg"),
            WordRead::Unassigned => write!(f, "none"),
        }
    }
}

// The flag that was found.
#[derive(Clone, Copy)]
pub(crate) struct Flag(pub(crate) Option<Place>);

impl Display for Flag {
    fn fmt<W: fmt::Write>(&self, f: &mut fmt::Formatter<W>) -> fmt::Result {
        match self.0 {
            Some(Place { row, column }) => write!(f, "flag {row} {column}"),
            None => write!(f, "no flag"),
        }
    }
}

// How many flags there are.
#[derive(Clone, Copy)]
pub(crate) struct Flags(pub(crate) usize);

impl Display for Flags {
    fn fmt<W: fmt::Write>(&self, f: &mut fmt::Formatter<W>) -> fmt::Result {
        write!(f, "flags {}", self.0)
    }
}

// Settings, each number after a space.
#[derive(Clone, Copy)]
struct Listed(Settings);

impl Display for Listed {
    fn fmt<W: fmt::Write>(&self, f: &mut fmt::Formatter<W>) -> fmt::Result {
        let settings = self.0;
        for weight in settings.weights {
            write!(f, " {weight}")?;
        }
        write!(
            f,
            " {} {} {}",
            settings.threshold, settings.truncation, settings.samples
        )
    }
}

// A board as it is.
#[derive(Clone, Copy)]
pub(crate) struct Shown(pub(crate) Board);

impl Display for Shown {
    fn fmt<W: fmt::Write>(&self, f: &mut fmt::Formatter<W>) -> fmt::Result {
        let Board {
            sides,
            waiting,
            in_force,
            running,
            fed,
        } = self.0;
        write!(
            f,
            "board {} {} {} {} {fed}{}{}",
            sides.width,
            sides.height,
            u8::from(sides.binned),
            u8::from(running),
            Listed(waiting),
            Listed(in_force)
        )
    }
}

// Numbers, ten on a line.
#[derive(Drop)]
pub(crate) struct Tens<'a, T>(pub(crate) &'a [T]);

impl<T: Display> Display for Tens<'_, T> {
    fn fmt<W: fmt::Write>(&self, f: &mut fmt::Formatter<W>) -> fmt::Result {
        for line in self.0.chunks(10) {
            for (i, number) in line.iter().enumerate() {
                let space = if i == 0 { "" } else { " " };
                write!(f, "{space}{number}")?;
            }
            writeln!(f)?;
        }
        Ok(())
    }
}
