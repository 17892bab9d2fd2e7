ghost use Rattle.std.specs.Prelude.{◌≡◌, ℕ, ◌+◌, ◌<◌, ◌≤◌, List, length, take, Some, IfOk, IfErr};
ghost use Rattle.sha2.specs.Sha256.{sha256};
ghost use Rattle.sha2.specs.Hashers.{Holds256};
ghost use Rattle.dm_types.specs.Faults.{HasCause};
ghost use Rattle.dm_disk_model.specs.Disk.{now, Stands, bytes_at};
ghost use Rattle.dm_part.specs.Digest.{part_kind, EndsAt};

use dm_disk_model::{Disk, Place};
use dm_types::DiskKind;
use sha2::{Digest, Sha256};

/// Why a part has no digest.
#[derive(Clone, Copy, Debug, PartialEq, Eq)]
pub enum PartFault {
    /// A call on the disk failed.
    Disk(DiskKind),
    /// The part ends at this place, below the total.
    Short(u64),
}

/// Takes the next bytes of the part, at most up to the total, and says how many: 0 only at its end.
fn take_in<D: Disk>(
    disk: &mut D,
    part: &Place,
    at: u64,
    total: u64,
    buf: &mut [u8],
    hasher: &mut Sha256,
) -> Result<u64, PartFault>
    requires stands { D.tells → Stands (now (D.history disk.old)) part.now }
    requires room { 0 < length buf.old }
    requires below { at < total }
    ensures taken { D.tells → (file : List ℕ) → bytes_at (now (D.history disk.old)) part.now ≡ Some file → at ≤ length file → Holds256 hasher.old (take at file)
        → IfOk result (λ n. Holds256 hasher.new (take (at + n) file) × (at + n ≤ length file) × (n ≡ 0 → length file ≡ at)) }
    ensures within { IfOk result (λ n. at + n ≤ total) }
    ensures only_disk { IfErr result (λ fault. (place : ℕ) → EndsAt fault place → ⊥) }
    ensures stays { D.history disk.new ≡ D.history disk.old }
    ensures cause { HasCause part_kind (D.faults disk.old) (D.faults disk.new) result }
    ensures far { D.far disk.new ≡ D.far disk.old }
{
    let count = match disk.read_at(part, at, buf) {
        Ok(count) => (count as u64).min(total - at),
        Err(fault) => return Err(PartFault::Disk(fault.0)),
    };
    hasher.update(&buf[..count as usize]);
    Ok(count)
}

/// SHA-256 (FIPS 180-4) of the first `total` bytes of the part, which is read once, in pieces of the
/// buffer's size. It takes no memory. `Short` comes exactly where the part ends below the total and no
/// call on the disk failed before that is seen.
pub fn digest<D: Disk>(
    disk: &mut D,
    part: &Place,
    total: u64,
    buf: &mut [u8],
) -> Result<[u8; 32], PartFault>
    requires stands { D.tells → Stands (now (D.history disk.old)) part.now }
    requires room { 0 < length buf.old }
    ensures is { D.tells → (file : List ℕ) → bytes_at (now (D.history disk.old)) part.now ≡ Some file
        → IfOk result (λ sum. (total ≤ length file) × (sum ≡ sha256 (take total file))) }
    ensures short { D.tells → (file : List ℕ) → bytes_at (now (D.history disk.old)) part.now ≡ Some file
        → IfErr result (λ fault. (place : ℕ) → EndsAt fault place → (place ≡ length file) × (place < total)) }
    ensures below { IfErr result (λ fault. (place : ℕ) → EndsAt fault place → place < total) }
    ensures stays { D.history disk.new ≡ D.history disk.old }
    ensures cause { HasCause part_kind (D.faults disk.old) (D.faults disk.new) result }
    ensures far { D.far disk.new ≡ D.far disk.old }
{
    let mut hasher = Sha256::new();
    let mut at = 0;
    'pieces: while at < total {
        match take_in(disk, part, at, total, buf, &mut hasher) {
            Ok(0) => return Err(PartFault::Short(at)),
            Ok(count) => at += count,
            Err(fault) => return Err(fault),
        }
    }
    Ok(hasher.finalize())
}
