//! Real files.
ghost use Rattle.std.specs.Prelude.{[], ◌≡◌, ◌≤◌, None, IfOk, IsOk, OnErr, vec_len};
ghost use Rattle.tmr_outside.specs.Counts.{Rose};
ghost use Rattle.tmr_outside.specs.Pieces.{TakesFile};

use crate::fault_count::FaultCount;
use crate::gathered::Gathered;
use crate::progress::Progress;
use crate::reading::hand_out_within;
use crate::save_call::SaveCall;
use crate::saving::save_file;
use crate::source::{Counted, load_fault};
use crate::watched::Watched;
use crate::whole::Whole;
use crate::working::Working;
use crate::{Files, Giver, LoadFault, SaveFault, Taker};
use std::alloc::Global;
use std::fs::OpenFile;
use std::io::Read;
use std::marker::Model;
use std::rt::Clock;
use std::{fs, rt};

/// Real files, as the runtime has them. They tell nothing of what they hold, and are never steady. One
/// count serves the loads and the saves of all names, and each refusal raises it. They are seen as this
/// count.
///
/// A save replaces the whole file at once, where that can be done: what is saved is written beside it, synced and renamed. Elsewhere
/// the file is written where it stands. No clause says so.
///
/// A load or a save that takes over a second is told of on standard error, where that was asked for, and so is the work that comes behind
/// it, once a tenth of a second has passed since the files were made: no clause speaks of it.
#[derive(Drop)]
pub struct DiskFiles<'a, R: rt::Files + Clock + Eprint> {
    rt: &'a R,
    alloc: Global,
    faults: FaultCount,
    tells: bool,
    working: Working<'a, R>,
}

impl<'a, R: rt::Files + Clock + Eprint> Model for DiskFiles<'a, R> {
    ghost use Rattle.std.specs.Prelude.{ℕ};

    ghost Value = { ℕ };

    ghost view = { λ files. files.faults };
}

impl<'a, R: rt::Files + Clock + Eprint> DiskFiles<'a, R> {
    /// The files of this runtime, without faults. Nothing is told of them.
    pub fn new(alloc: Global, rt: &'a R) -> Self
        ensures { result ≡ 0 }
    {
        DiskFiles {
            rt,
            alloc,
            faults: FaultCount::new(),
            tells: false,
            working: Working::silent(rt),
        }
    }

    /// The same, but long loads and saves are told of on standard error, and that a run is at work behind them.
    pub fn telling(alloc: Global, rt: &'a R) -> Self
        ensures { result ≡ 0 }
    {
        DiskFiles {
            rt,
            alloc,
            faults: FaultCount::new(),
            tells: true,
            working: Working::of_run(rt),
        }
    }
}

impl<R: rt::Files + Clock + Eprint> DiskFiles<'_, R> {
    /// Makes the name hold what is given, and counts a refusal.
    fn save_given<G: Giver>(&mut self, name: &str, from: &mut G) -> Result<(), SaveFault>
        ensures refused { OnErr result (Rose self.old self.new) }
        ensures later { self.old ≤ self.new }
    {
        let save = SaveCall {
            rt: self.rt,
            alloc: self.alloc,
            name,
            tells: self.tells,
        };
        let outcome = save_file(&save, from);
        self.working.tell();
        self.faults.raise_if(outcome.is_err());
        outcome
    }
}

/// What tells of a load of this open file. Only where it will tell, the system is asked how long the file is.
fn progress_of<'a, R: rt::Files + Clock + Eprint>(
    rt: &'a R,
    name: &'a str,
    file: &R::File,
    tells: bool,
) -> Progress<'a, R> {
    if !tells {
        return Progress::silent(rt, "reading", name);
    }
    match file.metadata() {
        Ok(found) => Progress::of_load(rt, name, found.len()),
        Err(_) => Progress::of_load(rt, name, 0),
    }
}

/// Hands out an open file in pieces, if it has at most `limit` bytes, and tells of it.
fn hand_out_watched<F: Read + Drop, R: Clock + Eprint, T: Taker>(
    file: F,
    progress: Progress<'_, R>,
    limit: u64,
    to: &mut T,
) -> Result<(), LoadFault>
    requires { limit ≤ T.room to.old }
    ensures { TakesFile (T.stands to.old) (T.stands to.new) (T.room to.old) (T.room to.new) limit None [] (IsOk result) }
{
    let mut watched = Watched::new(Counted::new(file), progress);
    let outcome = hand_out_within(&mut watched, limit, to);
    watched.end();
    outcome
}

/// Hands out a file in pieces, if it has at most `limit` bytes.
fn read_file<R: rt::Files + Clock + Eprint, T: Taker>(
    rt: &R,
    name: &str,
    limit: u64,
    tells: bool,
    to: &mut T,
) -> Result<(), LoadFault>
    requires { limit ≤ T.room to.old }
    ensures { TakesFile (T.stands to.old) (T.stands to.new) (T.room to.old) (T.room to.new) limit None name.now (IsOk result) }
{
    match fs::open(rt, name) {
        Ok(file) => {
            let progress = progress_of(rt, name, &file, tells);
            hand_out_watched(file, progress, limit, to)
        }
        Err(e) => Err(load_fault(&e)),
    }
}

/// The bytes of a file, if there are at most `limit`.
fn gather_file<R: rt::Files + Clock + Eprint>(
    rt: &R,
    alloc: Global,
    name: &str,
    limit: u64,
    tells: bool,
) -> Result<Vec<u8>, LoadFault>
    ensures { IfOk result (λ bytes. vec_len bytes ≤ limit) }
{
    let mut gathered = Gathered::new(alloc, limit);
    read_file(rt, name, limit, tells, &mut gathered)?;
    if gathered.complete {
        Ok(gathered.bytes)
    } else {
        Err(LoadFault::Memory)
    }
}

impl<R: rt::Files + Clock + Eprint> Files for DiskFiles<'_, R> {
    ghost use Rattle.std.specs.Prelude.{None};

    ghost seen = { λ count. record {
      contents = None;
      load_count = λ name. count;
      save_count = λ name. count;
    } };

    ghost steady = { λ files. ⊥ };

    ghost steady_tells = { λ files never. absurd never };

    fn load(&mut self, alloc: Global, name: &str, limit: u64) -> Result<Vec<u8>, LoadFault> {
        let outcome = gather_file(self.rt, alloc, name, limit, self.tells);
        self.working.tell();
        self.faults.raise_if(outcome.is_err());
        outcome
    }

    fn load_pieces<T: Taker>(
        &mut self,
        _alloc: Global,
        name: &str,
        limit: u64,
        to: &mut T,
    ) -> Result<(), LoadFault> {
        let outcome = read_file(self.rt, name, limit, self.tells, to);
        self.working.tell();
        self.faults.raise_if(outcome.is_err());
        outcome
    }

    fn save(&mut self, name: &str, bytes: &[u8]) -> Result<(), SaveFault> {
        self.save_given(name, &mut Whole::new(bytes))
    }

    fn save_pieces<G: Giver>(&mut self, name: &str, from: &mut G) -> Result<(), SaveFault> {
        self.save_given(name, from)
    }
}
