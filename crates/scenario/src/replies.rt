// What commands answer.

// What a command answers: a code; a code, the messages collected, the operations and the messages dropped; whether a group is filled;
// whether the buffer is full by count and can be filled by slots; or a text, so many bytes at the start of what was lent for it.
#[derive(Clone, Copy)]
pub enum Reply {
    Code(u8),
    Fill(u8, usize, u64, usize),
    IsFilled(bool),
    Full(bool, bool),
    Text(usize),
}
