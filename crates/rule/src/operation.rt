// A node's operation, from its byte.
ghost use Rattle.std.specs.Prelude.{◌≡◌, ◌≤◌};
ghost use Rattle.rule.specs.Operations.{Decodes};

// The operations, by their bytes.
#[derive(Clone, Copy, PartialEq, Eq)]
pub enum Operation {
    True = 0,
    Label = 1,
    Not = 2,
    And = 3,
    Or = 4,
    SomeUntil = 5,
    AllUntil = 6,
}

// No operation has this byte.
#[derive(Clone, Copy)]
pub struct NoOperation;

impl TryFrom<u8> for Operation {
    type Error = NoOperation;

    ghost try_from_gives = { Decodes };

    fn try_from(byte: u8) -> Result<Self, NoOperation> {
        match byte {
            0 => Ok(Operation::True),
            1 => Ok(Operation::Label),
            2 => Ok(Operation::Not),
            3 => Ok(Operation::And),
            4 => Ok(Operation::Or),
            5 => Ok(Operation::SomeUntil),
            6 => Ok(Operation::AllUntil),
            _ => Err(NoOperation),
        }
    }
}
