//! A certificate's length in bytes, and saving it as a file.
ghost use Rattle.std.specs.Prelude.{◌≡◌, Some, IsOk, IsSome, OnOk, OnErr, length};
ghost use Rattle.pb_outside.specs.Outside.{IfTold, KeepsOthers, KeepsHolds, HasCause};
ghost use Rattle.pb_outside.specs.Calls.{KeepsLoads};
ghost use Rattle.pb_outside.specs.Saves.{IsPartSaved, Saves, SavesPart};
ghost use Rattle.pb_cert.specs.Stated.{text_of};

use crate::certificate::Certificate;
use pb_outside::{Failed, Shelf};
use pb_print::{len_of_lines, save_lines};

impl Certificate<'_> {
    /// How many bytes the certificate's text has. It takes no memory.
    pub fn len(&self) -> u128
        ensures { result ≡ length (text_of self.now) }
    {
        len_of_lines(self)
    }

    /// Saves the certificate's text as the file of this name, in pieces of whole lines, each of at
    /// most 4,096 bytes. It takes no memory. An error is a fault of the shelf.
    pub fn write_to<H: Shelf>(&self, shelf: &mut H, name: &str) -> Result<(), Failed>
        ensures ok { OnOk result (IfTold (H.files shelf.old) (H.files shelf.new)
            (λ old new. new name.now ≡ Some (text_of self.now))) }
        ensures err { OnErr result (IfTold (H.files shelf.old) (H.files shelf.new)
            (λ old new. IsPartSaved old new name.now (text_of self.now))) }
        ensures others { IfTold (H.files shelf.old) (H.files shelf.new)
            (λ old new. KeepsOthers old new name.now) }
        ensures calls { OnOk result
            (Saves (H.calls shelf.old) (H.calls shelf.new) name.now (text_of self.now)) }
        ensures failed { OnErr result
            (SavesPart (H.calls shelf.old) (H.calls shelf.new) name.now (text_of self.now)) }
        ensures sure { IsSome (H.files shelf.old)
            → H.can_hold shelf.old name.now (length (text_of self.now)) → IsOk result }
        ensures holds { KeepsHolds (H.can_hold shelf.old) (H.can_hold shelf.new) }
        ensures loads { KeepsLoads (H.can_load shelf.old) (H.can_load shelf.new) }
        ensures cause { HasCause (H.faults shelf.old) (H.faults shelf.new) result }
    {
        save_lines(self, shelf, name)
    }
}
