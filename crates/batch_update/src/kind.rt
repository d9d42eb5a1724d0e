// What a record's first field says that it is.
ghost use Rattle.std.specs.Prelude.{◌≡◌};
ghost use Rattle.batch_update.specs.Kind as spec;

/// What a record is.
#[derive(Clone, Copy)]
pub(crate) enum Kind {
    Insert,
    Delete,
    End,
    Report,
    Update,
}

/// The kind of a record with this first field, if it has one.
pub(crate) fn kind_of(field: &[u8]) -> Option<Kind>
    ensures { result ≡ spec.kind_of field.now }
{
    match field {
        [byte] => marked(*byte),
        _ => None,
    }
}

fn marked(byte: u8) -> Option<Kind>
    ensures { result ≡ spec.marked byte }
{
    match byte {
        b'+' => Some(Kind::Insert),
        b'-' => Some(Kind::Delete),
        b'!' => Some(Kind::End),
        b'?' => Some(Kind::Report),
        b'=' => Some(Kind::Update),
        _ => None,
    }
}
