// The format's promise: each function here carries the theorem of its name.
ghost use Rattle.daybook.specs.Laws.{ReadsWhatIsWritten, WrittenIfRead};

// A file is read as what it says, and what is read is the file that says it.
pub fn reads_what_is_written()
    ensures reads { ReadsWhatIsWritten }
    ensures writes { WrittenIfRead }
{}
