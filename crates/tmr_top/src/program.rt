//! One run of the program.
ghost use Rattle.std.specs.Prelude.{◌≡◌, ◌≢◌, ◌≤◌, ◌⊎◌, true, false, Some, None, IfOk, IfSome, IsSomeAnd, MatchResult};
ghost use Rattle.tmr_outside.specs.Counts.{Rose, NoneRose};
ghost use Rattle.tmr_outside.specs.Seen.{IsTold};
ghost use Rattle.tmr_words.specs.Line.{Command, Pair, Hardening, Guarding, Certifying, Validate, Harden, Guard, Certify, TryOut, meaning};
ghost use Rattle.tmr_words.specs.Trials.{Trial};
ghost use Rattle.tmr_top.specs.Tried.{IsTried};
ghost use Rattle.tmr_top.specs.ByWords.{compares, is_decided};
ghost use Rattle.tmr_top.specs.Loads.{loaded_names, saved_names};
ghost use Rattle.tmr_top.specs.Changes.{ChangesOnly, NoneFailed};
ghost use Rattle.tmr_top.specs.Saves.{Completes};
ghost use Rattle.tmr_top.specs.Pairs.{Masked};
ghost use Rattle.tmr_top.specs.HardenedFiles.{LeavesHardened, LeavesGuarded, LeavesCertified};
ghost use Rattle.tmr_top.specs.Causes.{Where, OrMemory, SomeMissing, SomeLoadRose, SomeSaveRose, IsRefusable, Disagrees, Succeeds};
ghost use Rattle.tmr_top.specs.Private.Works.{LeavesLine};
ghost use Rattle.tmr_top.specs.Runs.{Acts, Ends, Prints, Ran, Untouched};

use crate::Status;
use crate::decision::Decision;
use crate::performing::perform;
use std::alloc::Global;
use tmr_base::OutOfMemory;
use tmr_outside::{Files, PutFault, Sink};
use tmr_texts::{usage, want_of_memory};
use tmr_words::read_line;

/// What the words come to before anything is printed.
#[tactic(auto, using(crate::proofs::RunLaws::lines))]
fn decide<F: Files>(alloc: Global, words: &[String], files: &mut F) -> Result<Decision, OutOfMemory>
    ensures acts { MatchResult result
        (λ d. Acts (meaning words.now) (F.seen files.old) (F.seen files.new) d.status d.text.items)
        (λ _. LeavesLine (meaning words.now) (F.seen files.old) (F.seen files.new)) }
    ensures unfailed { IfOk result (λ d. IsTold (F.seen files.old) → d.status ≢ Status.Fault
        → NoneFailed (F.seen files.old) (F.seen files.new)) }
    ensures missing { F.steady files.old → IfOk result (λ d. d.status ≡ Status.Fault
        → Where (meaning words.now) (F.seen files.old) SomeMissing) }
    ensures stays { F.steady files.old → F.steady files.new }
    ensures agrees { (c : Command) → meaning words.now ≡ Some c → compares c ≡ false
        → IfOk result (λ d. d.status ≢ Status.NotAccepted) }
    ensures tried { (t : Trial) → meaning words.now ≡ Some (TryOut t)
        → IfOk result (λ d. d.status ≡ Status.Done → IsTried t d.text.items) }
    ensures load_failed { IsTold (F.seen files.old)
        → Untouched (F.seen files.old) (F.seen files.new)
        ⊎ NoneRose (F.seen files.old).load_count (F.seen files.new).load_count }
    ensures changes { ChangesOnly
        (loaded_names (meaning words.now)) (saved_names (meaning words.now))
        (F.seen files.old) (F.seen files.new) }
    ensures masks { (p : Pair) → meaning words.now ≡ Some (Validate p)
        → IfOk result (λ d. d.status ≡ Status.Done
        → IfSome (F.seen files.old).contents (λ held. Masked held p)) }
{
    match read_line(alloc, words) {
        Ok(Some(command)) => perform(alloc, &command, files),
        Ok(None) => {
            let text = usage(alloc)?;
            Ok(Decision {
                status: Status::Usage,
                text,
            })
        }
        Err(_) => Err(OutOfMemory),
    }
}

/// Puts the text of a status that was decided.
fn finish<S: Sink>(status: Status, text: &[u8], out: &mut S) -> Status
    ensures ends { Ends text.now (S.seen out.old) (S.seen out.new) status result }
    ensures later { (S.seen out.old).put_count ≤ (S.seen out.new).put_count }
    ensures steady { S.steady out.old → OrMemory result status }
    ensures stays { S.steady out.old → S.steady out.new }
{
    match out.put(text) {
        Ok(()) => status,
        Err(PutFault::Memory) => Status::Memory,
        Err(PutFault::Failed) => {
            if status == Status::Done {
                Status::Fault
            } else {
                status
            }
        }
    }
}

/// One run, what is printed, and what the files then hold.
#[tactic(auto, using(crate::proofs::RunLaws::runs))]
fn decide_and_put<F: Files, S: Sink>(
    alloc: Global,
    words: &[String],
    files: &mut F,
    out: &mut S,
) -> Status
    ensures ran { Ran (meaning words.now) (F.seen files.old) (F.seen files.new)
        (S.seen out.old) (S.seen out.new) result }
    ensures unfailed { IsTold (F.seen files.old)
        → result ≢ Status.Fault → result ≢ Status.Memory
        → NoneFailed (F.seen files.old) (F.seen files.new) }
    ensures missing { F.steady files.old → S.steady out.old → result ≡ Status.Fault
        → Where (meaning words.now) (F.seen files.old) SomeMissing }
    ensures steady_files { F.steady files.old → F.steady files.new }
    ensures steady_sink { S.steady out.old → S.steady out.new }
    ensures agrees { (c : Command) → meaning words.now ≡ Some c → compares c ≡ false
        → result ≢ Status.NotAccepted }
    ensures tried { (t : Trial) → meaning words.now ≡ Some (TryOut t)
        → result ≡ Status.Done → Prints (IsTried t) (S.seen out.old) (S.seen out.new) }
    ensures load_failed { IsTold (F.seen files.old)
        → Untouched (F.seen files.old) (F.seen files.new)
        ⊎ NoneRose (F.seen files.old).load_count (F.seen files.new).load_count }
    ensures changes { ChangesOnly
        (loaded_names (meaning words.now)) (saved_names (meaning words.now))
        (F.seen files.old) (F.seen files.new) }
    ensures masks { (p : Pair) → meaning words.now ≡ Some (Validate p)
        → result ≡ Status.Done → IfSome (F.seen files.old).contents (λ held. Masked held p) }
    ensures puts { (S.seen out.old).put_count ≤ (S.seen out.new).put_count }
{
    match decide(alloc, words, files) {
        Ok(decision) => finish(decision.status, &decision.text, out),
        Err(_) => finish(Status::Memory, want_of_memory().as_bytes(), out),
    }
}

/// Runs the program once: reads the words (without the program's own name), loads the files, does
/// the command, saves its texts, and puts its text.
///
/// Most commands save nothing. These save what they make: `harden ORIG HARD CERT` saves HARD and CERT, `flatten ORIG FLAT`
/// saves FLAT, `guard ORIG GUARDED` saves GUARDED, `to-aag ORIG AAG` saves AAG, `from-aag AAG FLAT` saves FLAT,
/// `wave ORIG HARD CERT SCHED VCD` saves VCD, `certify ORIG HARD CERT` saves CERT, and `picture ORIG HARD CERT DOT` saves DOT.
/// How large files may be is said by the words: the usual limits hold, or the large ones where `--large` is among them.
/// Where memory is short, the answer may be `Memory` in place of any other.
pub fn run<F: Files, S: Sink>(alloc: Global, words: &[String], files: &mut F, out: &mut S) -> Status
    // The headline. Where contents are told and the words are `validate ORIG HARD CERT`, the answer
    // Done says that the three names hold two designs and a certificate, that the eight rules hold
    // of them, and that every allowed schedule of upsets of the hardened design is masked, over all
    // inputs.
    ensures masks { (p : Pair) → meaning words.now ≡ Some (Validate p)
        → result ≡ Status.Done → IfSome (F.seen files.old).contents (λ held. Masked held p) }

    // What `harden` leaves. Where contents are told, the answer Done says that HARD and CERT hold a
    // hardened form of the design that ORIG held, which is what is read there, and where ORIG is
    // neither of them, that `validate` of the three files comes to Done.
    ensures hardens { (w : Hardening) → meaning words.now ≡ Some (Harden w)
        → result ≡ Status.Done → IfSome (F.seen files.old).contents (λ held.
        IsSomeAnd (F.seen files.new).contents (LeavesHardened w held)) }

    // What `guard` leaves. Where contents are told, the answer Done says that GUARDED holds the guarded
    // design of the design that ORIG held, and where ORIG is not GUARDED, that `guarded` of the two
    // files comes to Done.
    ensures guards { (w : Guarding) → meaning words.now ≡ Some (Guard w)
        → result ≡ Status.Done → IfSome (F.seen files.old).contents (λ held.
        IsSomeAnd (F.seen files.new).contents (LeavesGuarded w held)) }

    // What `certify` leaves. Where contents are told, the answer Done says that CERT holds a certificate of the
    // designs that ORIG and HARD hold, which the eight rules accept, and that `validate` of the three files
    // comes to Done.
    ensures certifies { (w : Certifying) → meaning words.now ≡ Some (Certify w)
        → result ≡ Status.Done → IfSome (F.seen files.old).contents (λ held.
        IsSomeAnd (F.seen files.new).contents (LeavesCertified w held)) }

    // What rests on the words alone, whatever the files tell. What `trial` prints is what it promises,
    // and only a command that compares files can find that they do not agree.
    ensures tried { (t : Trial) → meaning words.now ≡ Some (TryOut t)
        → result ≡ Status.Done → Prints (IsTried t) (S.seen out.old) (S.seen out.new) }
    ensures agrees { (c : Command) → meaning words.now ≡ Some c → compares c ≡ false
        → result ≢ Status.NotAccepted }

    // What is decided, saved and printed.
    ensures ran { Ran (meaning words.now) (F.seen files.old) (F.seen files.new)
        (S.seen out.old) (S.seen out.new) result }

    ensures usage { result ≡ Status.Usage → meaning words.now ≡ None }
    ensures usage_only { meaning words.now ≡ None → OrMemory result Status.Usage }

    // A fault comes only where a load, a save or the put failed, and no fault is passed over.
    ensures fault { result ≡ Status.Fault → IsSomeAnd (meaning words.now) (λ c.
        SomeLoadRose c (F.seen files.old) (F.seen files.new)
        ⊎ SomeSaveRose c (F.seen files.old) (F.seen files.new)
        ⊎ Rose (S.seen out.old).put_count (S.seen out.new).put_count) }
    ensures unfailed { IsTold (F.seen files.old)
        → result ≢ Status.Fault → result ≢ Status.Memory
        → NoneFailed (F.seen files.old) (F.seen files.new) }

    // Where nothing else fails, it comes exactly of the first file that is not there.
    ensures fault_steady { F.steady files.old → S.steady out.old → result ≡ Status.Fault
        → Where (meaning words.now) (F.seen files.old) SomeMissing }
    ensures missing_only { Where (meaning words.now) (F.seen files.old) (λ c held.
        SomeMissing c held → OrMemory result Status.Fault) }

    // Where contents are told and no load failed, the three other answers come exactly by what the
    // files hold. Of `certify` it is not promised which of Done and NotAccepted comes.
    ensures refused { result ≡ Status.Refused
        → Where (meaning words.now) (F.seen files.old) IsRefusable }
    ensures refused_only { Where (meaning words.now) (F.seen files.old) (λ c held.
        ¬ (SomeLoadRose c (F.seen files.old) (F.seen files.new))
        → IsRefusable c held → OrMemory result Status.Refused) }
    ensures not_accepted { result ≡ Status.NotAccepted
        → Where (meaning words.now) (F.seen files.old) Disagrees }
    ensures not_accepted_only { Where (meaning words.now) (F.seen files.old) (λ c held.
        is_decided c ≡ true → ¬ (SomeLoadRose c (F.seen files.old) (F.seen files.new))
        → Disagrees c held → OrMemory result Status.NotAccepted) }
    ensures done { result ≡ Status.Done → Where (meaning words.now) (F.seen files.old)
        (λ c held. Completes c held (F.seen files.new).contents) }
    ensures complete { Where (meaning words.now) (F.seen files.old) (λ c held.
        is_decided c ≡ true → ¬ (SomeLoadRose c (F.seen files.old) (F.seen files.new))
        → ¬ (SomeSaveRose c (F.seen files.old) (F.seen files.new))
        → ¬ (Rose (S.seen out.old).put_count (S.seen out.new).put_count)
        → Succeeds c held → OrMemory result Status.Done) }
    ensures otherwise { Where (meaning words.now) (F.seen files.old) (λ c held.
        ¬ (SomeLoadRose c (F.seen files.old) (F.seen files.new))
        → ¬ (SomeSaveRose c (F.seen files.old) (F.seen files.new))
        → ¬ (Rose (S.seen out.old).put_count (S.seen out.new).put_count)
        → ¬ (IsRefusable c held) → ¬ (Disagrees c held) → OrMemory result Status.Done) }
    ensures complete_steady { F.steady files.old → S.steady out.old
        → Where (meaning words.now) (F.seen files.old) (λ c held.
        is_decided c ≡ true → Succeeds c held → OrMemory result Status.Done) }

    // What changes.
    ensures untouched { (result ≡ Status.Usage) ⊎ (result ≡ Status.Refused)
        ⊎ (result ≡ Status.NotAccepted) → Untouched (F.seen files.old) (F.seen files.new) }
    ensures load_failed { IsTold (F.seen files.old) → IfSome (meaning words.now) (λ c.
        SomeLoadRose c (F.seen files.old) (F.seen files.new)
        → Untouched (F.seen files.old) (F.seen files.new)) }
    ensures changes { ChangesOnly
        (loaded_names (meaning words.now)) (saved_names (meaning words.now))
        (F.seen files.old) (F.seen files.new) }
    ensures puts { (S.seen out.old).put_count ≤ (S.seen out.new).put_count }
    ensures steady_files { F.steady files.old → F.steady files.new }
    ensures steady_sink { S.steady out.old → S.steady out.new }
{
    decide_and_put(alloc, words, files, out)
}
