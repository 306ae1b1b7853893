// Files as a shelf.

ghost use Rattle.std.specs.Prelude.{◌≡◌, ◌≢◌, ◌≤◌, ℕ, List, length, take, None, Err, IfOk, IfSome};
ghost use Rattle.std.specs.Prelude.{IsErrOf};
ghost use Rattle.tpal_tool.specs.Shelf.{HasRisen, count_after};

use crate::shelf::{Shelf, ShelfFault};
use std::alloc::Global;
use std::io::Read;
use std::rt::Files;
use std::{fs, io};

/// The files that a runtime reaches, as a shelf: a name is a path. It tells no text.
#[derive(Drop)]
pub struct FileShelf<R: Files> {
    /// What reaches the files.
    pub rt: R,
    /// How many fetches have failed. It stands still at its type's end.
    pub faults: u64,
}

impl<R: Files> Shelf for FileShelf<R> {
    ghost text = { λ _ _. None };

    ghost faults = { λ shelf _. shelf.faults };

    fn fetch(&mut self, alloc: Global, name: &str, limit: u32) -> Result<Vec<u8>, ShelfFault>
        ensures within { IfOk result (λ bytes. length bytes.items ≤ limit) }
        ensures failed { IsErrOf result ShelfFault.Failed
            → HasRisen self.old.faults self.new.faults }
        ensures counts { self.old.faults ≤ self.new.faults }

        // What it leaves.
        ensures after_failed { IsErrOf result ShelfFault.Failed
            → self.new ≡ record self.old { faults = count_after self.old.faults } }
        ensures same { result ≢ Err ShelfFault.Failed → self.new ≡ self.old }
    {
        match read_file(&self.rt, alloc, name, u64::from(limit) + 1) {
            Ok(bytes) if bytes.len() > limit as usize => Err(ShelfFault::Long),
            Ok(bytes) => Ok(bytes),
            Err(error) if error.kind() == io::ErrorKind::OutOfMemory => Err(ShelfFault::NoMemory),
            Err(_) => {
                self.faults = self.faults.saturating_add(1);
                Err(ShelfFault::Failed)
            }
        }
    }
}

// The first bytes of a file, at most so many.
fn read_file<R: Files>(rt: &R, alloc: Global, path: &str, most: u64) -> io::Result<Vec<u8>> {
    read_first(alloc, fs::open(rt, path)?, most)
}

// The first bytes that a reader has left, at most so many.
fn read_first<F: Read + Drop>(alloc: Global, reader: F, most: u64) -> io::Result<Vec<u8>>
    ensures { IfOk result
        (λ bytes. IfSome (F.remaining reader) (λ left. bytes.items ≡ take most left)) }
{
    let mut bytes = Vec::new(alloc);
    reader.take(most).read_to_end(&mut bytes)?;
    Ok(bytes)
}
