// The royalty report of a settled quarter.
use hexadecimal::Hex;
use quarter::{Quarter, Unread};
use service::{Product, SeatBook, Service};

pub(crate) fn print_report(rt: &HostRuntime, quarter: &Quarter) -> anyhow::Result<()> {
    println!(rt; "ROYALTY REPORT")?;
    println!(rt)?;
    print_products(rt, &quarter.book)?;
    print_requests(rt, quarter)?;
    print_unread(rt, quarter)?;
    let digest = quarter.book.digest();
    let trail = quarter.trail.digest();
    println!(rt; "Book digest  {}", Hex(&digest))?;
    println!(rt; "Trail        {}", Hex(&trail))?;
    Ok(())
}

// A row for each product that has seats bought or out, and their sums.
fn print_products(rt: &HostRuntime, book: &SeatBook) -> anyhow::Result<()> {
    println!(rt; "Product  Bought  Out  Holders")?;
    let mut bought = 0u32;
    let mut out = 0u32;
    for (i, product) in (0..16).filter_map(|i| Some((i, book.product(i)?))) {
        if product.bought > 0 || product.out() > 0 {
            print_product(rt, i, &product)?;
            bought = bought.saturating_add(u32::from(product.bought));
            out = out.saturating_add(product.out());
        }
    }
    println!(rt; " In all  {bought:>6}  {out:>3}")?;
    println!(rt)?;
    Ok(())
}

fn print_product(rt: &HostRuntime, i: u8, product: &Product) -> anyhow::Result<()> {
    let bought = product.bought;
    let out = product.out();
    print!(rt; "{i:>7}  {bought:>6}  {out:>3}  ")?;
    if out == 0 {
        print!(rt; "none")?;
    }
    for (k, client) in (0..64).filter(|client| product.holds(*client)).enumerate() {
        let before = if k > 0 { " " } else { "" };
        print!(rt; "{before}{client}")?;
    }
    if out > u32::from(bought) {
        print!(rt; "  (more out than bought)")?;
    }
    println!(rt)?;
    Ok(())
}

fn print_requests(rt: &HostRuntime, quarter: &Quarter) -> anyhow::Result<()> {
    let Quarter {
        granted,
        refused,
        lines,
        ..
    } = quarter;
    let unread = quarter.unread.len();
    println!(rt; "Requests granted  {granted:>6}")?;
    println!(rt; "Requests refused  {refused:>6}")?;
    println!(rt; "Lines not read    {unread:>6}  of {lines}")?;
    println!(rt)?;
    Ok(())
}

fn print_unread(rt: &HostRuntime, quarter: &Quarter) -> anyhow::Result<()> {
    if quarter.unread.is_empty() {
        return Ok(());
    }
    println!(rt; "Lines that could not be read, and were passed over:")?;
    for Unread { line, fault } in &quarter.unread {
        println!(rt; "  line {line:>4}  {fault}")?;
    }
    println!(rt)?;
    Ok(())
}
