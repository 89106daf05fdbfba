//! Files that the arguments name.

ghost use Rattle.std.specs.Prelude.{◌≡◌, ◌⊎◌, ℕ, List, IfOk, IfErr};
ghost use Rattle.screentext_command.specs.declared.error.TextError.TheVariants.{File, Memory};

use crate::error::TextError;
use std::alloc::Global;

/// Where files are read. The ghost `holds` of each kind says which bytes a file may have, and `lacks` which files can't
/// be read. Both may say nothing.
pub trait Files {
    ghost holds: { Self → List ℕ → List ℕ → Type 0 } = { λ _ _ _. Unit {0} };

    ghost lacks: { Self → List ℕ → Type 0 } = { λ _ _. Unit {0} };

    /// The bytes of a file.
    fn read(&self, alloc: Global, path: &str) -> Result<Vec<u8>, TextError>
        ensures bytes { IfOk result (λ bytes. holds self.now path.now bytes.items) }
        ensures fault { IfErr result (λ e. (e ≡ Memory) ⊎ ((e ≡ File) × lacks self.now path.now)) };
}

/// No file can be read here.
pub struct NoFiles;

impl Files for NoFiles {
    ghost holds = { λ _ _ _. ⊥ };

    fn read(&self, _alloc: Global, _path: &str) -> Result<Vec<u8>, TextError> {
        Err(TextError::File)
    }
}
