// The first word of a line, read as the name of a command.

// What a name asks for: those of the buffer, then those of the tray, then those of the groups and of what is only looked at.
#[derive(Clone, Copy)]
pub enum Verb {
    Buffer,
    Add,
    Remove,
    Begin,
    Commit,
    Rollback,
    Rows,
    Row,
    Cost,
    Set,
    Keys,
    Quiet,
    Loud,
    Group,
    Join,
    Fill,
    IsFilled,
    Full,
    Display,
}

// The verb that a word names, if it names one.
pub fn verb_of(word: &[u8]) -> Option<Verb> {
    Some(match word {
        b"buffer" => Verb::Buffer,
        b"add" => Verb::Add,
        b"remove" => Verb::Remove,
        b"begin" => Verb::Begin,
        b"commit" => Verb::Commit,
        b"rollback" => Verb::Rollback,
        b"rows" => Verb::Rows,
        b"row" => Verb::Row,
        b"cost" => Verb::Cost,
        b"set" => Verb::Set,
        b"keys" => Verb::Keys,
        b"quiet" => Verb::Quiet,
        b"loud" => Verb::Loud,
        b"group" => Verb::Group,
        b"join" => Verb::Join,
        b"fill" => Verb::Fill,
        b"isfilled" => Verb::IsFilled,
        b"full" => Verb::Full,
        b"display" => Verb::Display,
        _ => return None,
    })
}

// How many numbers a verb takes; none is named for a removal, which takes as many as there are.
fn wants(verb: Verb) -> Option<usize> {
    match verb {
        Verb::Remove => None,
        Verb::Add => Some(6),
        Verb::Fill => Some(5),
        Verb::Row | Verb::IsFilled => Some(3),
        Verb::Buffer | Verb::Group | Verb::Join => Some(2),
        Verb::Cost | Verb::Keys | Verb::Full | Verb::Display => Some(1),
        _ => Some(0),
    }
}

// Whether a verb takes n numbers.
pub fn takes(verb: Verb, n: usize) -> bool {
    wants(verb).is_none_or(|wanted| n == wanted)
}
