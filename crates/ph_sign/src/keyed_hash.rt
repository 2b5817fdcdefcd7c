//! The keyed hash of RFC 2104 over SHA-256.
ghost use Rattle.std.specs.Prelude.{◌≡◌, length, ◌≤◌, ◌++◌, replicate, ◌-◌, List, ℕ};
ghost use Rattle.sha2.specs.Sha256.{sha256};
ghost use Rattle.sha2.specs.Hashers.{Holds256};
ghost use Rattle.ph_sign.specs.Hmac.{block_key, hmac_of, padded};

use sha2::{Digest, Sha256};

// The key in a block, with zeros behind it.
fn filled(key: &[u8]) -> [u8; 64]
    requires { length key.now ≤ 64 }
    ensures { result ≡ key.now ++ replicate (64 - length key.now) 0 }
{
    let mut block = [0u8; 64];
    'bytes: for i in 0..key.len() {
        block[i] = key[i];
    }
    block
}

/// The block of a key: the key itself, or its hash where it is longer than a block, with zeros behind it.
pub fn block_of(key: &[u8]) -> [u8; 64]
    ensures { result ≡ block_key key.now }
{
    if key.len() <= 64 {
        filled(key)
    } else {
        let digest = Sha256::digest(key);
        filled(&digest)
    }
}

// Each byte of the block, xored with one byte.
fn pad(block: &[u8; 64], with: u8) -> [u8; 64]
    ensures { result ≡ padded with block.now }
{
    let mut out = [0u8; 64];
    'bytes: for i in 0..64 {
        out[i] = block[i] ^ with;
    }
    out
}

/// The inner hash, which the text is then fed to.
pub fn begun(block: &[u8; 64]) -> Sha256
    ensures { Holds256 result (padded 0x36 block.now) }
{
    let inner_pad = pad(block, 0x36);
    let mut inner = Sha256::new();
    inner.update(&inner_pad);
    inner
}

/// The keyed hash of what was fed to the inner hash.
pub fn ended(inner: Sha256, block: &[u8; 64]) -> [u8; 32]
    ensures { (fed : List ℕ) → Holds256 inner fed → result ≡ sha256 (padded 0x5c block.now ++ sha256 fed) }
{
    let outer_pad = pad(block, 0x5c);
    let first = inner.finalize();
    let mut outer = Sha256::new();
    outer.update(&outer_pad);
    outer.update(&first);
    outer.finalize()
}

/// HMAC-SHA-256 of a text under a key, which may have any length.
pub fn hmac(key: &[u8], text: &[u8]) -> [u8; 32]
    ensures { result ≡ hmac_of key.now text.now }
{
    let block = block_of(key);
    let mut inner = begun(&block);
    inner.update(text);
    ended(inner, &block)
}
