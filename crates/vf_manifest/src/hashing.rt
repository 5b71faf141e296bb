//! Digests of headers.

ghost use Rattle.std.specs.Prelude.{◌≡◌, IfOk};
ghost use Rattle.hex.specs.Hex.{encode_lower};
ghost use Rattle.sha2.specs.Sha256.{sha256};

use sha2::{Digest, Sha256};
use std::alloc::Global;
use vf_base::{Memory, Text};

/// The digest of SHA-256 of a header's bytes (FIPS 180-4), in hexadecimal with lower case letters.
pub fn digest(alloc: Global, bytes: &[u8]) -> Result<Text, Memory>
    ensures { IfOk result (λ text. text ≡ encode_lower (sha256 bytes.now)) }
{
    let hash = Sha256::digest(bytes);
    let text = hex::encode(alloc, hash)?;
    Text::from_bytes(alloc, text.as_bytes())
}
