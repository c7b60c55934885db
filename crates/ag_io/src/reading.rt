//! Reading the whole of a source.
ghost use Rattle.std.specs.Prelude.{◌≡◌, ◌≤◌, ◌⊎◌, [], Some, length, IfOk, OnOk, IfSome, IsErrOf};
ghost use Rattle.ag_base.specs.Outside.{Rose, AnswersFile};
ghost use Rattle.ag_base.specs.declared.outside.FolderFault.TheVariants as faults;

use ag_base::{Bytes, FolderFault, List, MOST_FILE_BYTES, Source};
use std::alloc::Global;

/// All bytes of a source, up to its end. Where the source tells what it has left, the answer is that of a file with
/// these bytes. After an error the source may have given some of them.
pub fn read_all<S: Source>(alloc: Global, source: &mut S) -> Result<Bytes, FolderFault>
    ensures file { IfSome (S.left source.old) (λ bytes. AnswersFile (Some bytes) result) }
    ensures end { IfSome (S.left source.old) (λ bytes. OnOk result (S.left source.new ≡ Some [])) }
    ensures within_limit { IfOk result (λ bytes. length bytes ≤ 4194304) }
    ensures never_absent { IsErrOf result faults.NotThere → ⊥ }
    ensures never_falls { S.faults source.old ≤ S.faults source.new }
    ensures failed { IsErrOf result faults.Failed → Rose (S.faults source.old) (S.faults source.new) }
    ensures unfaulted { IsErrOf result faults.Failed ⊎ (S.faults source.new ≡ S.faults source.old) }
{
    let mut bytes = Vec::new(alloc);
    let mut piece = [0u8; 4096];
    loop {
        let Ok(n) = source.read(&mut piece) else {
            return Err(FolderFault::Failed);
        };
        if n == 0 {
            break;
        }
        if n > MOST_FILE_BYTES - bytes.len() {
            return Err(FolderFault::TooLong);
        }
        if bytes.extend_from_slice(&piece[..n]).is_err() {
            return Err(FolderFault::OutOfMemory);
        }
    }
    Ok(List::from_vec(bytes))
}
