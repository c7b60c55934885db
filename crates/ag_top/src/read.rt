//! Reading the file that a command asks for.
ghost use Rattle.std.specs.Prelude.{◌≡◌, ◌≢◌, ◌≤◌, ◌⊎◌, length, IfOk, IsErrOf};
ghost use Rattle.ag_base.specs.Outside.{Rose};
ghost use Rattle.ag_base.specs.declared.outside.FolderFault.TheVariants as faults;
ghost use Rattle.ag_top.specs.Words.{source_name};
ghost use Rattle.ag_top.specs.Files.{outside, IsAnswerOf};

use ag_base::{Bytes, Folder, FolderFault, Source};
use ag_io::read_all;
use std::alloc::Global;

/// All bytes of the file of that name: of the source for `-`, and else of the folder.
pub fn read_text<S: Source, F: Folder>(
    alloc: Global,
    name: &str,
    source: &mut S,
    folder: &mut F,
) -> Result<Bytes, FolderFault>
    ensures answer { IsAnswerOf (outside (S.left source.old) (F.files folder.old)) name.now result }
    ensures few { IfOk result (λ text. length text ≤ 4194304) }
    ensures failed { IsErrOf result faults.Failed → Rose (S.faults source.old) (S.faults source.new)
        ⊎ Rose (F.faults folder.old) (F.faults folder.new) }
    ensures source_unfaulted { IsErrOf result faults.Failed ⊎ (S.faults source.new ≡ S.faults source.old) }
    ensures folder_unfaulted { IsErrOf result faults.Failed ⊎ (F.faults folder.new ≡ F.faults folder.old) }
    ensures source_never_falls { S.faults source.old ≤ S.faults source.new }
    ensures folder_never_falls { F.faults folder.old ≤ F.faults folder.new }
    ensures source_unread { name.now ≢ source_name → source.new ≡ source.old }
    ensures folder_unread { name.now ≡ source_name → folder.new ≡ folder.old }
    ensures files { F.files folder.new ≡ F.files folder.old }
{
    if name == "-" {
        read_all(alloc, source)
    } else {
        folder.read(name)
    }
}
