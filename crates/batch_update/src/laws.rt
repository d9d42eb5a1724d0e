// Laws of the definitions in specs/. Each function does nothing, and its contract is the law.
ghost use Rattle.batch_update.specs.Laws.{RowsAreNamedInDecimal, EntriesAreSaid, WhatIsSaidIsRead};

pub fn rows_are_named_in_plain_decimal()
    ensures { RowsAreNamedInDecimal }
{}

pub fn entries_are_what_records_say()
    ensures { EntriesAreSaid }
{}

pub fn what_records_say_is_read()
    ensures { WhatIsSaidIsRead }
{}
