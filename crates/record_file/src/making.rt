//! Making a file of records, and beginning one anew.
ghost use Rattle.std.specs.Prelude.{◌≡◌, ◌<◌, ◌≤◌, ◌+◌, ◌++◌, ◌∷◌, [], ℕ, List, true, length, take, IsErr};
ghost use Rattle.outside.specs.Faults.{HasCause, counted};
ghost use Rattle.outside.specs.Disks.{at_rest, disk_state_of};
ghost use Rattle.record_file.specs.Form.{Form, IsForm};
ghost use Rattle.record_file.specs.Records.{IsUnmade};
ghost use Rattle.record_file.specs.Appending.{AllOpen};
ghost use Rattle.record_file.specs.Making.{Clears, Makes, Renews, RestsClear};

use outside::{Disk, Failed, put};

// Clears the first byte where it is missing or 1.
fn clear<D: Disk>(disk: &mut D, file: &[u8]) -> Result<(), Failed>
    ensures cleared { D.tells ≡ true → (form : Form) (head : List ℕ) → IsForm form
        → IsUnmade form file.now → length file.now ≤ form.limit
        → disk_state_of (D.told disk.old) ≡ at_rest file.now
        → Clears form head (D.told disk.old) (D.told disk.new) result }
    ensures cause { HasCause (D.faults disk.old) (D.faults disk.new) (IsErr result) }
    ensures counts { D.faults disk.new ≡ counted (D.faults disk.old) result }
{
    if file.is_empty() || file[0] == 1 {
        return put(disk, 0, &[0]);
    }
    Ok(())
}

// A head and a closed gate, and zeros behind them.
fn with_gate(head: &[u8]) -> [u8; 256]
    requires { length head.now < 256 }
    ensures { take (length head.now + 1) result ≡ head.now ++ 0 ∷ [] }
{
    let mut text = [0; 256];
    text[..head.len()].copy_from_slice(head);
    text
}

// Writes the head and a closed gate, and then that the file is made.
fn write_head<D: Disk>(disk: &mut D, head: &[u8]) -> Result<(), Failed>
    requires { length head.now < 256 }
    ensures made { D.tells ≡ true → (form : Form) → IsForm form
        → length head.now ≡ form.head_length → RestsClear form (disk_state_of (D.told disk.old))
        → Makes form head.now (D.told disk.old) (D.told disk.new) result }
    ensures cause { HasCause (D.faults disk.old) (D.faults disk.new) (IsErr result) }
    ensures counts { D.faults disk.new ≡ counted (D.faults disk.old) result }
{
    let text = with_gate(head);
    put(disk, 1, &text[..head.len() + 1])?;
    put(disk, 0, &[1])
}

/// Makes a file that isn't made.
pub(crate) fn make<D: Disk>(disk: &mut D, file: &[u8], head: &[u8]) -> Result<(), Failed>
    requires { length head.now < 256 }
    ensures made { D.tells ≡ true → (form : Form) → IsForm form
        → length head.now ≡ form.head_length
        → IsUnmade form file.now → length file.now ≤ form.limit
        → disk_state_of (D.told disk.old) ≡ at_rest file.now
        → Makes form head.now (D.told disk.old) (D.told disk.new) result }
    ensures cause { HasCause (D.faults disk.old) (D.faults disk.new) (IsErr result) }
    ensures counts { D.faults disk.new ≡ counted (D.faults disk.old) result }
{
    clear(disk, file)?;
    write_head(disk, head)
}

/// Begins a made file anew, under another head.
pub(crate) fn make_anew<D: Disk>(disk: &mut D, head: &[u8]) -> Result<(), Failed>
    requires { length head.now < 256 }
    ensures renewed { D.tells ≡ true → (form : Form) (old : List ℕ) (rs : List (List ℕ))
        → IsForm form → length head.now ≡ form.head_length
        → AllOpen form old rs (disk_state_of (D.told disk.old))
        → Renews form old head.now rs (D.told disk.old) (D.told disk.new) result }
    ensures cause { HasCause (D.faults disk.old) (D.faults disk.new) (IsErr result) }
    ensures counts { D.faults disk.new ≡ counted (D.faults disk.old) result }
{
    put(disk, 0, &[0])?;
    write_head(disk, head)
}
