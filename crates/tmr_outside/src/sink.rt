//! Where the printed text goes.
ghost use Rattle.std.specs.Prelude.{◌≡◌, ◌≢◌, ◌≤◌, ◌++◌, List, ℕ, Option, OnOk, IsErrOf, option_map};
ghost use Rattle.tmr_outside.specs.Counts.{Rose};
ghost use Rattle.tmr_outside.specs.Seen.{SinkSeen};
ghost use Rattle.tmr_outside.specs.Written.{AppendsPrefix};

use crate::PutFault;

/// Takes text. Its count of failed puts never falls.
pub trait Sink {
    /// What is seen of the sink: what went out, where that is told, and the count of failed puts.
    ghost seen: { Self → SinkSeen };

    /// The object fails at nothing.
    ghost steady: { Self → Type 0 };

    /// Sends the bytes out. `Failed` comes only where the count rose, and then a prefix of the bytes may
    /// have gone out. After `Memory` nothing went out.
    fn put(&mut self, bytes: &[u8]) -> Result<(), PutFault>
        ensures ok { OnOk result ((seen self.new).written ≡ option_map (λ before. before ++ bytes.now) (seen self.old).written) }
        ensures memory { IsErrOf result PutFault.Memory → (seen self.new).written ≡ (seen self.old).written }
        ensures prefix { AppendsPrefix bytes.now (seen self.old).written (seen self.new).written }
        ensures failed { IsErrOf result PutFault.Failed → Rose (seen self.old).put_count (seen self.new).put_count }
        ensures later { (seen self.old).put_count ≤ (seen self.new).put_count }
        ensures steady { steady self.old → steady self.new }
        ensures steady_ok { steady self.old
            → (result ≢ Err PutFault.Failed) × ((seen self.new).put_count ≡ (seen self.old).put_count) };
}
