use jobfile::job::Job;
use refusal::Layer;
use std::process::Abort;
use std::test::Fail;

// By the number that the rule has in the table, since that is what a caller is shown.
fn refuses(
    rt: &impl Abort,
    job: &mut Job,
    file: &[u8],
    number: u8,
    position: usize,
    layer: Layer,
) -> Result<(), Fail> {
    let refusal = job.read(file).err().ok_or("taken")?;
    assert_eq!(rt; refusal.number(), number);
    assert_eq!(rt; refusal.position, position);
    assert_eq!(rt; refusal.layer, layer);
    assert_eq!(rt; job.letter(), '-');
    assert_eq!(rt; job.places(), 0);
    Ok(())
}

// 16,384 bytes are not too many; one more is.
#[test]
fn the_longest_file(rt: HostRuntime) -> Result<(), Fail> {
    let mut job = Job::new(rt.alloc())?;
    let zeros = [0u8; 16_385];
    refuses(&rt, &mut job, &zeros, 1, 16_384, Layer::Frame)?;
    refuses(&rt, &mut job, &zeros[..16_384], 3, 0, Layer::Frame)
}

// The front of a file is taken as a trace.
fn takes(rt: &impl Abort, job: &mut Job, file: &[u8], length: usize) {
    assert!(rt; job.read(&file[..length.min(file.len())]).is_ok());
    assert_eq!(rt; job.letter(), 'T');
}

// The longest trace that there can be, and one event more: local events of one process, in four bytes each.
const FILE: usize = 4_114;

fn fill(file: &mut [u8; FILE], length: u16, count: u16) {
    let length = length.to_be_bytes();
    let count = count.to_be_bytes();
    file[..14].copy_from_slice(&[
        1, 0, 0, length[0], length[1], b'T', 1, b'K', 0, 1, 5, 0, count[0], count[1],
    ]);
    for event in file[14..].chunks_exact_mut(4) {
        event.copy_from_slice(&[3, 0, b'L', 5]);
    }
}

#[test]
fn the_longest_trace(rt: HostRuntime) -> Result<(), Fail> {
    let mut job = Job::new(rt.alloc())?;
    let mut file = [0u8; FILE];
    fill(&mut file, 4_110, 1_024);
    takes(&rt, &mut job, &file, 4_110);
    assert_eq!(rt; job.trace_part().trace().len(), 1_024);
    fill(&mut file, 4_114, 1_025);
    refuses(&rt, &mut job, &file, 7, 12, Layer::Job)?;
    fill(&mut file, 4_114, 1_024);
    refuses(&rt, &mut job, &file, 11, 4_110, Layer::Frame)
}
