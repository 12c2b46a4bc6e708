//! A depot of files, with a count of its faults.
ghost use Rattle.std.specs.Prelude.{◌≡◌, ℕ, Option, IfOk, OnOk, OnErr, IfSome, option_map, length};
ghost use Rattle.std.specs.Io.{ReadsAtMost};
ghost use Rattle.lara_base.specs.Causes.{HasCause};
ghost use Rattle.lara_base.specs.Depots.{Files, Reads, Changes, begun, appended, replaced, removed, MayBegin, MayAppend, MayRemove, Others};

use crate::file_name::FileName;
use crate::streams::Failed;

/// Files under names. Each call leaves every file but the one that it names as it was, also where it fails.
pub trait Depot {
    /// What stands under each name, where it tells that: a file's bytes, or nothing where it is absent. No call changes
    /// whether it tells.
    ghost told: { Self → Option Files };

    /// How often it has failed. It never falls.
    ghost faults: { Self → ℕ };

    /// The length of the file, or `None` where it is absent. It changes no file.
    fn len(&mut self, name: &FileName) -> Result<Option<u64>, Failed>
        ensures len { IfOk result (λ n. IfSome (told self.old) (λ files. n ≡ option_map length (files name.now))) }
        ensures files { told self.new ≡ told self.old }
        ensures cause { HasCause (faults self.old) (faults self.new) result };

    /// Puts the file's bytes from `at` on into the front of the buffer, as many as it has room for or the file has left,
    /// and gives their number. An absent file reads as an empty one. It changes no file.
    fn read(&mut self, name: &FileName, at: u64, buf: &mut [u8]) -> Result<usize, Failed>
        ensures bound { ReadsAtMost result buf.new }
        ensures bytes { IfOk result (λ n. IfSome (told self.old) (λ files. Reads (files name.now) at n buf.new)) }
        ensures files { told self.new ≡ told self.old }
        ensures cause { HasCause (faults self.old) (faults self.new) result };

    /// Makes the file empty. After `Failed` it is as before, empty or absent.
    fn begin(&mut self, name: &FileName) -> Result<(), Failed>
        ensures ok { OnOk result (Changes (told self.old) (told self.new) name.now begun) }
        ensures err { OnErr result (MayBegin (told self.old) (told self.new) name.now) }
        ensures others { Others (told self.old) (told self.new) name.now }
        ensures cause { HasCause (faults self.old) (faults self.new) result };

    /// Adds the bytes at the end of the file; an absent one counts as empty. After `Failed` the file has its old bytes
    /// and a front of these; an absent one may also stay absent.
    fn append(&mut self, name: &FileName, bytes: &[u8]) -> Result<(), Failed>
        ensures ok { OnOk result (Changes (told self.old) (told self.new) name.now (appended bytes.now)) }
        ensures err { OnErr result (MayAppend (told self.old) (told self.new) name.now bytes.now) }
        ensures others { Others (told self.old) (told self.new) name.now }
        ensures cause { HasCause (faults self.old) (faults self.new) result };

    /// Makes the file consist of just these bytes. After `Failed` it is as before.
    fn replace(&mut self, name: &FileName, bytes: &[u8]) -> Result<(), Failed>
        ensures ok { OnOk result (Changes (told self.old) (told self.new) name.now (replaced bytes.now)) }
        ensures err { OnErr result (told self.new ≡ told self.old) }
        ensures others { Others (told self.old) (told self.new) name.now }
        ensures cause { HasCause (faults self.old) (faults self.new) result };

    /// Makes the file absent. After `Failed` it is as before or absent.
    fn remove(&mut self, name: &FileName) -> Result<(), Failed>
        ensures ok { OnOk result (Changes (told self.old) (told self.new) name.now removed) }
        ensures err { OnErr result (MayRemove (told self.old) (told self.new) name.now) }
        ensures others { Others (told self.old) (told self.new) name.now }
        ensures cause { HasCause (faults self.old) (faults self.new) result };
}
