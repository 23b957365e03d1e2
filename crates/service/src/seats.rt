// The seat book: which client holds a seat of which product.
ghost use Rattle.std.specs.Prelude.{◌≡◌, ℕ, ◌<◌, List};
ghost use Rattle.std.specs.Option.{option_map};
ghost use Rattle.service.specs.declared.seats.Product.{Product};
ghost use Rattle.service.specs.Laws.{SetsStand, NeverOversold, NeverAboveBought};
ghost use Rattle.service.specs.Orders.{number_of};
ghost use Rattle.service.specs.Seats.{no_product, fresh_book, product, acted, done, seats_after, seats_answer, seats_digest, entry, out, holds, found_product};

use crate::orders::{Act, Order};
use crate::service::{Command, Service};
use hash::{HashBytes, Hasher};

// One product: how many seats were bought, and a bit for each client that holds one. The set is bits, since as eight
// bytes it stands in the digest, and nothing is allocated.
#[derive(Clone, Copy, PartialEq, Eq, Debug)]
pub struct Product {
    pub bought: u8,
    holders: u64,
}

impl Product {
    // A product of which nothing is bought and nothing is out.
    fn unsold() -> Product
        ensures { result ≡ no_product }
    {
        Product {
            bought: 0,
            holders: 0,
        }
    }

    // The product's entry in the digest.
    fn entry(&self) -> [u8; 9]
        ensures { result ≡ entry self.now }
    {
        let [a, b, c, d, e, f, g, h] = self.holders.to_be_bytes();
        [self.bought, a, b, c, d, e, f, g, h]
    }

    // How many seats are out.
    pub fn out(&self) -> u32
        ensures { result ≡ out self.now }
    {
        self.holders.count_ones()
    }

    // Whether a client holds a seat; clients above 63 never do.
    pub fn holds(&self, client: u16) -> bool
        ensures { result ≡ holds self.now client }
    {
        client < 64 && (self.holders >> client) % 2 == 1
    }

    // What an act of a client makes of the product; nothing where it is not done.
    fn acted(&self, client: u16, act: Act, n: u32) -> Option<Product>
        requires { client < 64 }
        ensures { result ≡ acted self.now client (number_of act) n }
    {
        match act {
            Act::Take if n == 0 && !self.holds(client) && self.out() < u32::from(self.bought) => {
                Some(Product {
                    holders: self.holders | 1 << client,
                    ..*self
                })
            }
            Act::Return if n == 0 && self.holds(client) => Some(Product {
                holders: self.holders ^ 1 << client,
                ..*self
            }),
            Act::Buy if client == 0 && n <= 64 => Some(Product {
                bought: n as u8,
                ..*self
            }),
            _ => None,
        }
    }
}

#[derive(Drop)]
pub struct SeatBook {
    products: [Product; 16],
}

impl SeatBook {
    // An empty book.
    pub fn new() -> SeatBook
        ensures fresh { result.products ≡ fresh_book }
        ensures sets_stand { SetsStand }
        ensures never_oversold { NeverOversold }
        ensures never_above_bought { NeverAboveBought }
    {
        SeatBook {
            products: [Product::unsold(); 16],
        }
    }

    // A product by its number; none above 15.
    pub fn product(&self, i: u8) -> Option<Product>
        ensures { result ≡ found_product self.now.products i }
    {
        self.products.get(usize::from(i)).copied()
    }

    // The product of a client's command, and what the command makes of it; nothing where it is not done.
    fn done(&self, client: u16, command: &Command) -> Option<(u8, Product)>
        ensures { result ≡ option_map (λ p. (product command.now, p)) (done self.now.products client command.now) }
    {
        if client >= 64 {
            return None;
        }
        let order = Order::read(command)?;
        let product = self.products[usize::from(order.product)];
        let after = product.acted(client, order.act, order.amount)?;
        Some((order.product, after))
    }
}

impl Service for SeatBook {
    ghost State = { List Product };

    ghost state = { λ book. book.products };

    ghost after = { λ products client command. seats_after products client command };

    ghost answer = { λ products client command. seats_answer products client command };

    ghost digest = { λ products. seats_digest products };

    // 1 where the command was done: a service answers by a number.
    fn step(&mut self, client: u16, command: &Command) -> u64 {
        match self.done(client, command) {
            Some((i, product)) => {
                self.products[usize::from(i)] = product;
                1
            }
            None => 0,
        }
    }

    fn digest(&self) -> HashBytes {
        let mut h = Hasher::new();
        for p in &self.products {
            h.update(&p.entry());
        }
        h.finish()
    }
}
