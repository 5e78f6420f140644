// The U of a clean block changes nothing that may be said of lines and memory.
ghost use Rattle.law.specs.Unlocks.{CleanUnlocksChangeNoCopy};

/// Whatever is said of lines and memory, such as that clean copies have memory's words, holds after
/// a done U that finds EC if it held before.
pub fn clean_unlocks_change_no_copy()
    ensures { CleanUnlocksChangeNoCopy }
{}
