// A row of an image: a field whose value is numbers, each in its width, and then names of eight bytes each.
ghost use Rattle.std.specs.Prelude.{◌≡◌, ◌+◌, ◌-◌, ◌*◌, ◌/◌, ◌%◌, ◌≤◌, length, IfSome, OnSome};
ghost use Rattle.image.specs.Rows.{bare, total, numbers_of};

// The form of a row: the tag of its field, the widths of its numbers and what they add to, and how many names it may have.
#[derive(Clone, Copy)]
pub(crate) struct Form<const N: usize> {
    pub tag: u8,
    pub widths: [usize; N],
    pub width: usize,
    pub names: usize,
    ghost adds: { total widths ≡ width },
}

// The numbers of a row, and how many names it has.
#[derive(Clone, Copy)]
pub(crate) struct Line<const N: usize> {
    pub numbers: [u64; N],
    pub names: usize,
}

// What stands at the front of bytes, and how many of them it has.
#[derive(Clone, Copy)]
pub(crate) struct Found<T> {
    pub value: T,
    pub size: usize,
}

// Fills the slice with the numbers, each in its width.
fn put_columns(widths: &[usize], numbers: &[u64], out: &mut [u8])
    requires { (length widths.now ≡ length numbers.now) × (total widths.now ≡ length out.old) }
    ensures { out.new ≡ bare widths.now numbers.now }
{
    let mut at = 0;
    for (width, number) in widths.iter().zip(numbers) {
        let end = at + *width;
        fields::put_number(*number, &mut out[at..end]);
        at = end;
    }
}

// Fills the list with the numbers that the bytes say in these widths.
fn read_columns(s: &[u8], widths: &[usize], numbers: &mut [u64])
    requires { (length numbers.old ≡ length widths.now) × (total widths.now ≤ length s.now) }
    ensures { numbers.new ≡ numbers_of widths.now s.now }
{
    let mut at = 0;
    for (i, width) in widths.iter().enumerate() {
        let end = at + *width;
        numbers[i] = fields::number(&s[at..end]);
        at = end;
    }
}

impl<const N: usize> Form<N> {
    ghost use Rattle.image.specs.Rows.{row_of, row_head, row_at};
    ghost use Rattle.image.specs.Code.{format_of, found_line};

    // Fills the slice with a row.
    pub fn put(&self, numbers: &[u64; N], names: &[u64], out: &mut [u8])
        requires { 3 + self.now.width + 8 * length names.now ≡ length out.old }
        ensures { out.new ≡ row_of (format_of self.now) (record { numbers = numbers.now; names = names.now }) }
    {
        fields::put_head(self.tag, out.len() - 3, out);
        let end = 3 + self.width;
        put_columns(&self.widths, numbers, &mut out[3..end]);
        fields::put_words(names, &mut out[end..]);
    }

    // How many bytes the value of the row at the front has: it has to have this form.
    pub fn head(&self, s: &[u8]) -> Option<usize>
        ensures is { result ≡ row_head self.now.tag self.now.width self.now.names s.now }
        ensures formed { IfSome result (λ n. (self.now.width ≤ n) × ((n - self.now.width) % 8 ≡ 0) × ((n - self.now.width) / 8 ≤ self.now.names)) }
        ensures room { IfSome result (λ n. 3 + n ≤ length s.now) }
    {
        let size = fields::read_head(s, self.tag)?;
        let rest = size.checked_sub(self.width)?;
        if rest % 8 != 0 || self.names < rest / 8 {
            return None;
        }
        Some(size)
    }

    // The row at the front, which has to have this form; its names are left to whoever wants them.
    pub fn read(&self, s: &[u8]) -> Option<Found<Line<N>>>
        ensures is { result ≡ found_line (row_at (format_of self.now) s.now) }
        ensures sized { IfSome result (λ r. (r.size ≡ 3 + self.now.width + 8 * r.value.names) × (r.value.names ≤ self.now.names)) }
        ensures room { IfSome result (λ r. r.size ≤ length s.now) }
    {
        let size = self.head(s)?;
        let mut numbers = [0; N];
        read_columns(&s[3..], &self.widths, &mut numbers);
        let names = (size - self.width) / 8;
        Some(Found {
            value: Line { numbers, names },
            size: 3 + size,
        })
    }
}

// Rows of one number
impl Form<1> {
    ghost use Rattle.image.specs.Rows.{row_of};
    ghost use Rattle.image.specs.Format.{single};
    ghost use Rattle.image.specs.Reading.{number_at};
    ghost use Rattle.image.specs.Code.{format_of};

    // Fills the slice with the row of that number.
    pub fn put_number(&self, number: u64, out: &mut [u8])
        requires { 3 + self.now.width ≡ length out.old }
        ensures { out.new ≡ row_of (format_of self.now) (single number) }
    {
        self.put(&[number], &[], out);
    }

    // The number of the row at the front.
    pub fn number(&self, s: &[u8]) -> Option<u64>
        ensures is { result ≡ number_at (format_of self.now) s.now }
        ensures room { OnSome result (3 + self.now.width ≤ length s.now) }
    {
        let row = self.read(s)?;
        Some(row.value.numbers[0])
    }
}
