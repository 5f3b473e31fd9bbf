// The job reader, for a caller in C or Rust.
#![tactic(auto)]

ghost use Rattle.std.specs.Prelude.{◌≡◌, length};
ghost use Rattle.jobc.specs.Told.{checked};

// What the job comes to, as one number; `index` gets the index of a job that is accepted.
#[unsafe(no_mangle)]
pub extern "C" fn upf_job_check(job: &[u8], index: &mut [u32]) -> u64
    ensures { result ≡ checked (length index.old) job.now }
{
    jobc::upf_job_check(job, index)
}
