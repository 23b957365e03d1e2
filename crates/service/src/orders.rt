// What a command asks of the seat book.
ghost use Rattle.std.specs.Prelude.{◌≡◌, ◌<◌, IfSome};
ghost use Rattle.service.specs.Orders.{act_numbered, number_of, order_of};

use crate::service::Command;

// What is to be done: a command's first byte is the number of its act.
#[derive(Clone, Copy, PartialEq, Eq, Debug)]
pub enum Act {
    Take = 1,
    Return = 2,
    Buy = 3,
}

impl Act {
    pub fn number(self) -> u8
        ensures { result ≡ number_of self }
    {
        self as u8
    }
}

// A number that no act has.
#[derive(Clone, Copy, PartialEq, Eq, Debug)]
pub struct UnknownAct(pub u8);

impl TryFrom<u8> for Act {
    type Error = UnknownAct;

    ghost try_from_gives = { λ number act. act ≡ act_numbered number };

    fn try_from(number: u8) -> Result<Act, UnknownAct> {
        match number {
            1 => Ok(Act::Take),
            2 => Ok(Act::Return),
            3 => Ok(Act::Buy),
            _ => Err(UnknownAct(number)),
        }
    }
}

// A command in its parts.
#[derive(Clone, Copy)]
pub(crate) struct Order {
    pub(crate) act: Act,
    pub(crate) product: u8,
    pub(crate) amount: u32,
}

impl Order {
    // The order that a command's bytes say; none where the product, the last four bytes or the act are no order's.
    pub(crate) fn read(command: &Command) -> Option<Order>
        ensures value { result ≡ order_of command.now }
        ensures in_book { IfSome result (λ order. order.product < 16) }
    {
        let [act, product @ 0..16, a, b, c, d, 0, 0, 0, 0] = *command else {
            return None;
        };
        Some(Order {
            act: Act::try_from(act).ok()?,
            product,
            amount: u32::from_be_bytes([a, b, c, d]),
        })
    }
}
