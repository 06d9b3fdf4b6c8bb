// What a log has made so far: a draft, and a basin.
use crate::answer::Answer;
use crate::command::Command;
use crate::stop::Stop;
use kaftanore::{
    Call, Draft, Entry, Head, Leaf, Rules, close, lay, look, open, read, replay, table_length,
    total, turn, write,
};
use std::alloc::{AllocError, Global};
use std::fs;
use std::mem::replace;

/// The most bytes that are written: more than the file of any basin has.
const MOST_BYTES: usize = 72_000;

/// The three tables of a basin. They are three and not one of squares, since the library's calls are lent each as a slice of its own.
#[derive(Drop)]
struct Tables {
    levels: Vec<u8>,
    beds: Vec<u16>,
    leaves: Vec<Leaf>,
}

impl Tables {
    fn new(heap: Global, squares: usize) -> Result<Tables, AllocError> {
        Ok(Tables {
            levels: vec![in heap; 0; squares]?,
            beds: vec![in heap; 0; squares]?,
            leaves: vec![in heap; Leaf::DRY; squares]?,
        })
    }
}

/// A basin: its head and its tables.
#[derive(Drop)]
struct Basin {
    head: Head,
    tables: Tables,
}

/// A draft with its beds.
#[derive(Drop)]
struct Plan {
    draft: Draft,
    beds: Vec<u16>,
}

/// The draft and the basin that a log has made, where it has.
#[derive(Drop)]
pub struct Session {
    plan: Option<Plan>,
    basin: Option<Basin>,
    /// Calls that were read and are still to be performed, as one list.
    list: Vec<Entry<Rules>>,
}

impl Session {
    pub fn new(heap: Global) -> Session {
        Session {
            plan: None,
            basin: None,
            list: Vec::new(heap),
        }
    }

    /// The basin that there is.
    fn basin(&self) -> Result<&Basin, Stop> {
        self.basin.as_ref().ok_or(Stop::NoBasin)
    }

    /// Performs a call, and says what it answered.
    pub fn perform(&mut self, rt: &HostRuntime, command: Command) -> Result<Answer, Stop> {
        let heap = rt.alloc();
        // a match and not a closure in each command: the closures would have to be boxed, and say no more
        match command {
            Command::Open { levels, width } => self.open(heap, levels, width),
            Command::Lay { x, y, bed } => self.lay(x, y, bed),
            Command::Close => self.close(heap),
            Command::Read(bytes) => self.read(heap, &bytes),
            Command::Load(path) => self.read(heap, &fs::read(rt, path.as_str())?),
            Command::Write => self.write(heap),
            Command::Save(path) => self.save(rt, path.as_str()),
            Command::Look { x, y } => self.look(x, y),
            Command::Total => self.total(),
            Command::Turn(number) => self.turn(heap, number),
        }
    }

    fn open(&mut self, heap: Global, levels: u32, width: u32) -> Result<Answer, Stop> {
        let squares = if levels <= 6 { 1 << (2 * levels) } else { 0 };
        let mut beds = vec![in heap; 0; squares]?;
        match open(levels, width, &mut beds) {
            Ok(draft) => {
                self.plan = Some(Plan { draft, beds });
                Ok(Answer::Done)
            }
            Err(refusal) => Ok(Answer::Refused(refusal)),
        }
    }

    fn lay(&mut self, x: usize, y: usize, bed: u32) -> Result<Answer, Stop> {
        let plan = self.plan.as_mut().ok_or(Stop::NoDraft)?;
        let laid = lay(&plan.draft, &mut plan.beds, x, y, bed);
        Ok(laid.map_or_else(Answer::Refused, |()| Answer::Done))
    }

    fn close(&mut self, heap: Global) -> Result<Answer, Stop> {
        let Plan { draft, beds } = self.plan.take().ok_or(Stop::NoDraft)?;
        let fresh = Tables::new(heap, beds.len())?;
        let mut tables = Tables { beds, ..fresh };
        match close(draft, &mut tables.levels, &tables.beds, &mut tables.leaves) {
            Ok(head) => {
                self.basin = Some(Basin { head, tables });
                Ok(Answer::Done)
            }
            Err((refusal, draft)) => {
                let beds = tables.beds;
                self.plan = Some(Plan { draft, beds });
                Ok(Answer::Refused(refusal))
            }
        }
    }

    fn read(&mut self, heap: Global, bytes: &[u8]) -> Result<Answer, Stop> {
        let mut tables = Tables::new(heap, table_length(bytes))?;
        match read(
            bytes,
            &mut tables.levels,
            &mut tables.beds,
            &mut tables.leaves,
        ) {
            Ok(head) => {
                self.basin = Some(Basin { head, tables });
                Ok(Answer::Done)
            }
            Err(fault) => Ok(Answer::Faulty(fault.report())),
        }
    }

    fn write(&self, heap: Global) -> Result<Answer, Stop> {
        let Basin { head, tables } = self.basin()?;
        let mut bytes = vec![in heap; 0; MOST_BYTES]?;
        match write(
            *head,
            &tables.levels,
            &tables.beds,
            &tables.leaves,
            &mut bytes,
        ) {
            Ok(count) => {
                bytes.truncate(count);
                Ok(Answer::File(bytes))
            }
            Err(refusal) => Ok(Answer::Refused(refusal)),
        }
    }

    fn save(&self, rt: &HostRuntime, path: &str) -> Result<Answer, Stop> {
        // A match says each case at once: a file is saved, and any other answer is handed on.
        match self.write(rt.alloc())? {
            Answer::File(bytes) => {
                fs::write(rt, path, &bytes)?;
                Ok(Answer::Number(bytes.len() as u64))
            }
            answer => Ok(answer),
        }
    }

    fn look(&self, x: usize, y: usize) -> Result<Answer, Stop> {
        let Basin { head, tables } = self.basin()?;
        let seen = look(*head, &tables.levels, &tables.beds, &tables.leaves, x, y);
        Ok(seen.map_or_else(Answer::Refused, Answer::Seen))
    }

    fn total(&self) -> Result<Answer, Stop> {
        let Basin { head, tables } = self.basin()?;
        let sum = total(*head, &tables.levels, &tables.beds, &tables.leaves);
        Ok(sum.map_or_else(Answer::Refused, Answer::Number))
    }

    /// Notes a call for the list.
    pub fn note(&mut self, call: Call<Rules>) -> Result<(), Stop> {
        self.basin()?;
        self.list.push(Entry { call, reply: Ok(0) })?;
        Ok(())
    }

    /// Performs the calls that were noted, as one list, and prints what each replied.
    pub fn perform_list(&mut self, rt: &HostRuntime) -> Result<(), Stop> {
        let Some(Basin { head, tables }) = &mut self.basin else {
            return Ok(());
        };
        let heap = rt.alloc();
        let mut work = vec![in heap; Leaf::DRY; tables.leaves.len()]?;
        let mut list = replace(&mut self.list, Vec::new(heap));
        replay(
            head,
            &mut tables.levels,
            &tables.beds,
            &mut tables.leaves,
            &mut work,
            &mut list,
        );
        for entry in list.iter() {
            let answer = entry.reply.map_or_else(Answer::Refused, Answer::Number);
            println!(rt; "{answer}")?;
        }
        Ok(())
    }

    // The number as it was read: the library answers any, and refuses what is no turn's.
    /// Turns the basin: the turned one takes its place.
    fn turn(&mut self, heap: Global, number: u32) -> Result<Answer, Stop> {
        let Basin { head, tables } = self.basin()?;
        let mut second = Tables::new(heap, tables.levels.len())?;
        match turn(
            *head,
            &tables.levels,
            &tables.beds,
            &tables.leaves,
            &mut second.levels,
            &mut second.beds,
            &mut second.leaves,
            number,
        ) {
            Ok(head) => {
                self.basin = Some(Basin {
                    head,
                    tables: second,
                });
                Ok(Answer::Done)
            }
            Err(refusal) => Ok(Answer::Refused(refusal)),
        }
    }
}
