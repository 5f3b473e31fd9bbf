// A job answered, for a caller in C or Rust.
ghost use Rattle.upf.specs.Runs.{Ran};
ghost use Rattle.upf.specs.Told.{told};

// The number of document 01, 0 for a job that is accepted; place and the lengths of the four texts stand behind the references. Nothing is asked of the
// lent lengths: work areas that are too short are refused by 1, texts that do not fit by 14.
// The C interface has each length beside its pointer.
pub fn upf_run(
    job: &[u8],
    files: &mut [u8],
    area: &mut [u8],
    nums: &mut [u32],
    glue: &mut [u8],
    pkg: &mut [u8],
    report: &mut [u8],
    log: &mut [u8],
    place: &mut usize,
    glued: &mut usize,
    packed: &mut usize,
    reported: &mut usize,
    logged: &mut usize,
) -> usize
    ensures { Ran job.now files.old files.new area.old area.new nums.old nums.new glue.old glue.new pkg.old pkg.new report.old report.new log.old log.new (told result place.new glued.new packed.new reported.new logged.new) }
{
    let a = super::run(job, files, area, nums, glue, pkg, report, log);
    *place = a.place;
    *glued = a.glue;
    *packed = a.pkg;
    *reported = a.report;
    *logged = a.log;
    a.number
}
