//! Words that mean paths.

ghost use Rattle.std.specs.Prelude.{◌≡◌, ◌↔◌, IsTrue, All, ◌++◌, List, ℕ, codes};
ghost use Rattle.vf_words.specs.Words.{is_path_byte, IsPathTo, IsSourcePath, IsManifestPath};

fn is_path_byte(byte: u8) -> bool
    ensures { result ≡ is_path_byte byte }
{
    33 <= byte
        && byte <= 126
        && byte != b'"'
        && byte != b'#'
        && byte != b'\''
        && byte != b'<'
        && byte != b'>'
}

/// Whether each byte may stand in a path.
fn are_path_bytes(bytes: &[u8]) -> bool
    ensures { IsTrue result ↔ All (λ b. IsTrue (is_path_byte b)) bytes.now }
{
    bytes.iter().all(|b| is_path_byte(*b))
}

/// Whether a word ends in `.c`.
fn ends_in_c(bytes: &[u8]) -> bool
    ensures { IsTrue result ↔ ((stem : List ℕ) × (bytes.now ≡ stem ++ codes ".c")) }
{
    match bytes {
        [.., b'.', b'c'] => true,
        _ => false,
    }
}

/// Whether two texts are the same.
fn same_bytes(first: &[u8], second: &[u8]) -> bool
    ensures { IsTrue result ↔ (first.now ≡ second.now) }
{
    first == second
}

/// Whether a word ends in `.vfmanifest`.
fn ends_in_vfmanifest(bytes: &[u8]) -> bool
    ensures { IsTrue result ↔ ((stem : List ℕ) × (bytes.now ≡ stem ++ codes ".vfmanifest")) }
{
    if bytes.len() < 11 {
        return false;
    }
    let (_, ending) = bytes.split_at(bytes.len() - 11);
    same_bytes(ending, b".vfmanifest")
}

/// Whether a word is the path of a source file.
#[tactic(auto, using(crate::proofs::Endings::path_to))]
pub fn is_source_path(word: &str) -> bool
    ensures { IsTrue result ↔ IsSourcePath word.now }
{
    let bytes = word.as_bytes();
    let source = ends_in_c(bytes);
    let printed = are_path_bytes(bytes);
    source && printed
}

/// Whether a word is the path of a manifest.
#[tactic(auto, using(crate::proofs::Endings::path_to))]
pub fn is_manifest_path(word: &str) -> bool
    ensures { IsTrue result ↔ IsManifestPath word.now }
{
    let bytes = word.as_bytes();
    let manifest = ends_in_vfmanifest(bytes);
    let printed = are_path_bytes(bytes);
    manifest && printed
}

/// Whether each of some words is the path of a source file.
pub fn are_source_paths(words: &[&str]) -> bool
    ensures { IsTrue result ↔ All (λ w. IsSourcePath w.now) words.now }
{
    words.iter().all(|w| is_source_path(*w))
}

/// Whether each of some words is the path of a manifest.
pub fn are_manifest_paths(words: &[&str]) -> bool
    ensures { IsTrue result ↔ All (λ w. IsManifestPath w.now) words.now }
{
    words.iter().all(|w| is_manifest_path(*w))
}
