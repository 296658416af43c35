// Numbers in records fit 64 bits, as their types say: what a proof knows of them once it has looked at each.
ghost use Rattle.std.specs.Prelude.{All};
ghost use Rattle.monoid_laws.specs.Kinds.{Fits};

use instance_records::record::Record;

/// The arguments of each of these records.
pub(crate) fn arguments_fit(records: &[Record])
    ensures fit { All (λ r. All Fits r.arguments) records.now }
{
    for record in records {
        numbers_fit(record.arguments());
    }
}

fn numbers_fit(numbers: &[i64])
    ensures fit { All Fits numbers.now }
{
    for number in numbers {
        number_fits(*number);
    }
}

fn number_fits(number: i64)
    ensures fits { Fits number }
{
    let _ = number;
}
