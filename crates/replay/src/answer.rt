// What a log is answered.
use kaftanore::{Look, Refusal, Report};
use std::fmt;

/// What a call answers, as its line shows it.
#[derive(Drop)]
pub enum Answer {
    /// It is granted, and has no more to say.
    Done,
    Number(u64),
    Seen(Look),
    /// The bytes of a file, which are shown as hexadecimal digits.
    File(Vec<u8>),
    Refused(Refusal),
    /// The file that it reads is refused.
    Faulty(Report),
}

impl fmt::Display for Answer {
    fn fmt<W: fmt::Write>(&self, f: &mut fmt::Formatter<W>) -> fmt::Result {
        // A match says at once how each answer is shown.
        match self {
            Answer::Done => write!(f, "ok"),
            Answer::Number(number) => write!(f, "ok {number}"),
            Answer::Seen(seen) => write!(f, "ok {seen}"),
            Answer::File(bytes) => {
                write!(f, "ok ")?;
                for byte in bytes.iter() {
                    write!(f, "{byte:02x}")?;
                }
                Ok(())
            }
            Answer::Refused(refusal) => write!(f, "refused {refusal}"),
            Answer::Faulty(report) => write!(f, "refused {report}"),
        }
    }
}
