//! What holds of what is asked of files: each function's contract is a law, and there is nothing to
//! run.

ghost use Rattle.bw_file.specs.Laws.{WhatWasReadStands, WhatStoodStays};

/// In the record of a segment the bytes that were read count as standing, and no settlement is
/// noted: the folder notes that. Once the settlement is done they do stand, if before it they stood
/// up to where the end begins that it writes again. What calls then leave of the file is what the
/// record of the segment says.
pub fn what_was_read_stands()
    ensures { WhatWasReadStands }
{}

/// A settlement of which a call failed leaves what stood before the end that it writes again.
pub fn what_stood_stays()
    ensures { WhatStoodStays }
{}
