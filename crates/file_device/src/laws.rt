// What holds of the definitions.
ghost use Rattle.std.specs.Prelude.{◌≡◌, List, ◌∷◌, length, true};
ghost use Rattle.file_device.specs.FileCalls.{FileHistory, FindsWhatACrashLeft, is_sound, disk_of};
ghost use Rattle.file_device.specs.FileExamples.{FileExamples};
ghost use Rattle.file_device.specs.declared.file_call.FileCall.{FileCall};
ghost use Rattle.file_device.specs.declared.file_call.FileCall.TheVariants.{Sync};

/// Worked examples of the disk that calls of a file make.
pub fn worked_examples()
    ensures { FileExamples }
{}

/// Where the last call was a sync and no call before had failed, an opening after a crash finds all that reads gave.
pub fn what_was_synced_is_found()
    ensures { (before later : FileHistory) (earlier : List FileCall) → before.calls ≡ Sync ∷ earlier → is_sound earlier ≡ true → FindsWhatACrashLeft before (length before.calls) later → (disk_of later.calls).view ≡ (disk_of before.calls).view }
{}
