//! What things are called among all files of a program.

ghost use Rattle.std.specs.Prelude.{◌≡◌, length};
ghost use Rattle.vf_manifest.specs.Words.{identity_text};

use std::marker::Model;

/// What a thing is called among all files of a program: the path of the file of its first declaration, and its name.
///
/// Both are lent.
#[derive(Debug, Drop)]
pub struct Identity<'a> {
    path: &'a [u8],
    name: &'a [u8],
}

impl<'a> Model for Identity<'a> {
    ghost use Rattle.vf_manifest.specs.Identities as pure;

    ghost Value = { pure.Identity };

    ghost view = { λ i. record { path = i.path.now; name = i.name.now } };
}

impl<'a> Identity<'a> {
    /// The identity with this path and this name.
    pub fn new(path: &'a [u8], name: &'a [u8]) -> Identity<'a>
        ensures { result ≡ record { path = path.now; name = name.now } }
    {
        Identity { path, name }
    }

    /// The path.
    pub fn path(&self) -> &[u8]
        ensures { result.now ≡ self.now.path }
    {
        self.path
    }

    /// The name.
    pub fn name(&self) -> &[u8]
        ensures { result.now ≡ self.now.name }
    {
        self.name
    }

    /// How many bytes its text has: path, `#` and name.
    pub fn text_len(&self) -> usize
        ensures { result ≡ length (identity_text self.now) }
    {
        self.path.len() + 1 + self.name.len()
    }
}
