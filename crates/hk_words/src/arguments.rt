// What the words after the command's name say.

/// The options and operands that follow a command's name. Which of them it takes, each command says.
#[derive(Drop)]
pub struct Arguments {
    pub workers: Option<u32>,
    pub trace: bool,
    pub operands: Option<Operands>,
}

/// Two numbers that follow a command's name: one of any size, and how many are wanted.
#[derive(Clone, Copy)]
pub struct Operands {
    pub number: u32,
    pub count: u32,
}
