// The totals of a table's columns, each wrapped to 64 bits.

ghost use Rattle.std.specs.Prelude.{◌≡◌};
ghost use Rattle.table_parts.specs.Sums.{added, taken};

/// Puts a row's values on the totals of their columns.
pub fn put_on(sums: &mut Vec<i64>, values: &[i64])
    ensures { sums.new.items ≡ added sums.old.items values.now }
{
    for (column, value) in values.iter().enumerate() {
        match sums.get_mut(column) {
            Some(sum) => *sum = sum.wrapping_add(*value),
            None => {}
        }
    }
}

/// Takes a row's values off the totals of their columns.
pub fn take_off(sums: &mut Vec<i64>, values: &[i64])
    ensures { sums.new.items ≡ taken sums.old.items values.now }
{
    for (column, value) in values.iter().enumerate() {
        match sums.get_mut(column) {
            Some(sum) => *sum = sum.wrapping_sub(*value),
            None => {}
        }
    }
}

/// Puts a row's values on the totals of their columns, in place of those that it had before.
pub fn put_over(sums: &mut Vec<i64>, before: &[i64], values: &[i64])
    ensures { sums.new.items ≡ added (taken sums.old.items before.now) values.now }
{
    take_off(sums, before);
    put_on(sums, values);
}
