// Files as shelves in memory keep them: a list of names and texts.
ghost use Rattle.std.specs.Prelude.{◌≡◌, ◌+◌, ◌<◌, ◌≤◌, ℕ, List, position, vec_len, vec_capacity};
ghost use Rattle.ports.specs.Files.{bytes_of, with_file};
ghost use Rattle.ports.specs.Lists.{has_name, look_up, IsPlaceOf, KeepsNames};

use crate::Text;
use rel_base::Name;
use std::alloc::Global;

// The place of the first file of this name.
pub(crate) fn place_of(files: &[(Name, Text)], name: &Name) -> Option<usize>
    ensures { result ≡ position (has_name name.now) files.now }
{
    files.iter().position(|file| *name == file.0)
}

// The place of the first file of this name, which is put behind the others where there is none.
pub(crate) fn place_for(alloc: Global, files: &mut Vec<(Name, Text)>, name: Name) -> usize
    requires { vec_len files.old < vec_capacity files.old }
    ensures place { IsPlaceOf name files.new.items result }
    ensures others { (bytes : List ℕ) → with_file name bytes (look_up files.new.items)
        ≡ with_file name bytes (look_up files.old.items) }
    ensures names { KeepsNames files.old.items files.new.items }
    ensures more { vec_len files.new ≤ vec_len files.old + 1 }
    ensures capacity { vec_capacity files.old ≤ vec_capacity files.new }
{
    match place_of(files, &name) {
        Some(place) => place,
        None => {
            let place = files.len();
            files.push_reserved((name, Text::of(Vec::new(alloc))));
            place
        }
    }
}

// The bytes that this name holds, none where there is no such file.
pub(crate) fn text_of<'a>(files: &'a [(Name, Text)], name: &Name) -> &'a [u8]
    ensures { result.now ≡ bytes_of (look_up files.now) name.now }
{
    match place_of(files, name) {
        Some(place) => files[place].1.bytes(),
        None => &[],
    }
}
