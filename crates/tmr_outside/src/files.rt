//! Files by name, and the counts of their faults.
ghost use Rattle.std.specs.Prelude.{◌≡◌, ◌≤◌, Some, vec_len, IfOk, IfSome, IsOk};
ghost use Rattle.std.specs.FinMap.{get};
ghost use Rattle.tmr_outside.specs.Loading.{IsLoad};
ghost use Rattle.tmr_outside.specs.Pieces.{TakesFile};
ghost use Rattle.tmr_outside.specs.Saving.{IsSave};
ghost use Rattle.tmr_outside.specs.Seen.{FilesSeen, IsTold};

use crate::{Giver, LoadFault, SaveFault, Taker};
use std::alloc::Global;

/// Files by name. Each name has a count of its failed loads and one of its failed saves, and no count
/// ever falls.
pub trait Files {
    /// What is seen of the files: what each name holds, where that is told, and the counts.
    ghost seen: { Self → FilesSeen };

    /// The object fails at nothing but a load of a name that is not there.
    ghost steady: { Self → Type 0 };

    /// The bytes of a file, if there are at most `limit`. `Failed` comes only where the load count of the
    /// name rose, and `TooLong` where there are more bytes. No file changes.
    fn load(&mut self, alloc: Global, name: &str, limit: u64) -> Result<Vec<u8>, LoadFault>
        ensures limit { IfOk result (λ bytes. vec_len bytes ≤ limit) }
        ensures bytes { IfOk result (λ bytes. IfSome (seen self.old).contents (λ held.
            get held name.now ≡ Some bytes.items)) }
        ensures seen { IsLoad name.now limit result (seen self.old) (seen self.new)
            (steady self.old) (steady self.new) };

    /// Hands out the bytes of a file in pieces, if there are at most `limit`. Its answers come as those of
    /// `load`. After a refusal a first part of the file has been taken.
    fn load_pieces<T: Taker>(
        &mut self,
        alloc: Global,
        name: &str,
        limit: u64,
        to: &mut T,
    ) -> Result<(), LoadFault>
        requires { limit ≤ T.room to.old }
        ensures taken { TakesFile (T.stands to.old) (T.stands to.new) (T.room to.old) (T.room to.new) limit
            (seen self.old).contents name.now (IsOk result) }
        ensures seen { IsLoad name.now limit result (seen self.old) (seen self.new)
            (steady self.old) (steady self.new) };

    /// Makes the name hold these bytes, and leaves all other names as they were. `Failed` comes only where
    /// the save count of the name rose; what the name then holds is open. After `Memory` all names are as
    /// before.
    fn save(&mut self, name: &str, bytes: &[u8]) -> Result<(), SaveFault>
        ensures { IsSave name.now bytes.now result (seen self.old) (seen self.new)
            (steady self.old) (steady self.new) };

    /// Makes the name hold the bytes that are given, piece by piece, and leaves all other names as they were.
    /// Its answers come as those of `save`, and `Memory` also where there was no room for a piece. After a
    /// refusal a first part of the pieces has been given.
    fn save_pieces<G: Giver>(&mut self, name: &str, from: &mut G) -> Result<(), SaveFault>
        ensures { IsSave name.now (G.rest from.old) result (seen self.old) (seen self.new)
            (steady self.old) (steady self.new) };

    /// A steady object tells what its files hold.
    ghost steady_tells: { (files : Self) → steady files → IsTold (seen files) };
}
