// The job reader for a caller in C or Rust.
#![tactic(auto)]

ghost use Rattle.std.specs.Prelude.{◌≡◌, length};
ghost use Rattle.jobc.specs.Told.{checked};

// What the job comes to, as one number; `index` gets the index of a job that is accepted.
pub fn upf_job_check(job: &[u8], index: &mut [u32]) -> u64
    ensures { result ≡ checked (length index.old) job.now }
{
    if index.len() < 1280 {
        return 4294967296;
    }
    match job::read_job(job, &mut index[..]) {
        Err(r) => (r.refusal.number() as u64) * 4294967296 + r.line as u64,
        Ok(_) => 0,
    }
}
