//! Which script and budget a checkpoint names.
ghost use Rattle.std.specs.Prelude.{◌≡◌};
ghost use Rattle.sha2.specs.Sha256.{sha256};
ghost use Rattle.lc_session_rules.specs.Slots.{is_for};
ghost use Rattle.lc_checkpoint.specs.Seen.{point_of};

use lc_checkpoint::Checkpoint;
use lc_json::is_same;
use sha2::{Digest, Sha256};

/// The SHA-256 of some bytes. Takes no memory.
pub fn digest(bytes: &[u8]) -> [u8; 32]
    ensures { result ≡ sha256 bytes.now }
{
    let mut hasher = Sha256::new();
    hasher.update(bytes);
    hasher.finalize()
}

/// Whether a checkpoint names the script of this digest, and this budget of blocks.
#[tactic(auto, unfolding(crate::proofs::Opened::scripts_and_points))]
pub fn is_for(digest: &[u8; 32], budget: u64, checkpoint: &Checkpoint) -> bool
    ensures { result ≡ is_for digest.now budget (point_of checkpoint.now) }
{
    is_same(&checkpoint.script, digest) && checkpoint.budget == budget
}
