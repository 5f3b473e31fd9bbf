// The non-output ports of one module, listed: two numbers each, where the name stands in the job and its length.
ghost use Rattle.std.specs.Prelude.{◌≡◌, ◌≤◌};
ghost use Rattle.jobindex.specs.Index.{rows};
ghost use Rattle.design.specs.Lists.{is_in};
ghost use Rattle.modtable.specs.Table.{input_in};
ghost use Rattle.modtable.specs.Making.{InputsGiven, InputsPut};

use jobindex::Index;

// Lists the non-output ports of module k; returns how many there are.
#[tactic(auto, using(crate::proofs::Listed::inputs))]
pub fn put_inputs(index: &Index, k: usize, inputs: &mut [u32]) -> usize
    requires { InputsGiven index.now.job.now index.now.rows.now k inputs.old }
    ensures { InputsPut index.now.job.now index.now.rows.now k inputs.new result }
{
    let mut i = 0;
    let mut c = ports::first(index.rows, k);
    while let Some(own) = ports::next_input(index, k, c) {
        super::part::put_part(inputs, 2 * i, own.name);
        i += 1;
        c = own.next;
    }
    i
}

// Whether a name is one of the first n.
// The inputs are being listed: n are there so far.
#[tactic(auto, using(crate::proofs::Listed::amongs))]
pub fn is_listed(job: &[u8], inputs: &[u32], n: usize, name: &[u8]) -> bool
    requires { n ≤ 192 }
    ensures { result ≡ is_in name.now (rows (input_in job.now inputs.now) n) }
{
    for i in 0..n {
        if text::compare::same(name, jobindex::part_at(job, inputs, 2 * i)) {
            return true;
        }
    }
    false
}
