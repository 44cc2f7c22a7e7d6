//! Files by name.
ghost use Rattle.std.specs.Prelude.{◌≡◌};
ghost use Rattle.ts_outside.specs.Desk.{file_of};

use crate::file_bytes::FileBytes;
use crate::name_text::NameText;
use std::marker::Model;

/// Files by their names; contracts see the list of pairs of a name and its bytes.
///
/// Of several pairs with one name the first counts.
#[derive(Drop)]
pub struct FileList {
    files: Vec<(NameText, FileBytes)>,
}

impl Model for FileList {
    ghost use Rattle.std.specs.Prelude.{List, ℕ};

    ghost Value = { List (List ℕ × List ℕ) };

    ghost view = { λ l. l.files.items };
}

impl FileList {
    /// The files of these pairs. Allocates nothing.
    pub fn of(files: Vec<(NameText, FileBytes)>) -> FileList
        ensures { result ≡ files.items }
    {
        FileList { files }
    }

    /// The pairs as a slice.
    pub fn as_slice(&self) -> &[(NameText, FileBytes)]
        ensures { result.now ≡ self.now }
    {
        self.files.as_slice()
    }

    /// The pairs as a `Vec`. Allocates nothing.
    pub fn into_vec(self) -> Vec<(NameText, FileBytes)>
        ensures { result.items ≡ self }
    {
        let FileList { files } = self;
        files
    }

    /// The bytes of a name: those of its first pair, and none where there is no such pair.
    pub fn bytes_of(&self, name: &str) -> &[u8]
        ensures { result.now ≡ file_of self.now name.now }
    {
        for file in self.files.as_slice() {
            if file.0.as_str() == name {
                return file.1.as_slice();
            }
        }
        &[]
    }
}
