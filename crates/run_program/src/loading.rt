//! From words to a run that can begin: the words, the host file, the script's file or the number that it is made of, and its
//! grammar.

ghost use Rattle.std.specs.Prelude.{◌≡◌, ◌≤◌, map, string_bytes, length, List, ℕ};
ghost use Rattle.rcce_io.specs.Files.{FilesView};
ghost use Rattle.scc_base.specs.Setups.{AreApart};
ghost use Rattle.outcomes.specs.Coming.{FileHolds};
ghost use Rattle.outcomes.specs.Complaints.{complaint_outcome};
ghost use Rattle.outcomes.specs.Outcomes.{file_refused};
ghost use Rattle.outcomes.specs.Plans.Plan.{Reads};
ghost use Rattle.rcce_words.specs.CommandLine.{IsSeedInRange, parse_command};
ghost use Rattle.rcce_words.specs.HostFile.{host_kind_name, most_host_bytes};
ghost use Rattle.run_program.specs.Asking.{AsksFor, layout_by, setup_by};
ghost use Rattle.script_gen.specs.Texts.{gen_text};
ghost use Rattle.run_program.specs.Loading.{AsksAfter, AsksListed, AsksMade, AsksOn, LoadsBy, LoadsPlan, LoadsWords};
ghost use Rattle.run_program.specs.Program.{file_plan, hosts_plan, made_plan, plan_after, work_plan};

use crate::loaded::Loaded;
use outcomes::{Complaint, read_file};
use rcce_io::Files;
use rcce_words::{
    HostFault, Job, MOST_HOST_BYTES, Work, complaint, default_hosts, parse_words, read_hosts,
    read_script_file, word_at,
};
use scc_base::{CoreId, Layout};
use script_gen::gen_script;
use script_reader::{ReadStop, read_script};
use script_rules::Scripts;
use std::alloc::Global;

/// Loads the run that the words ask for.
pub fn load<'a, F: Files>(
    alloc: Global,
    words: &'a [String],
    files: &mut F,
) -> Result<Loaded, Complaint<'a>>
    ensures { LoadsWords (map string_bytes words.now) (parse_command (map string_bytes words.now)) (F.seen files.old)
        (F.seen files.new) result }
{
    match parse_words(words) {
        Ok(job) => load_job(alloc, words, files, job),
        Err(fault) => Err(complaint(words, fault)),
    }
}

// Loads what a job asks for.
fn load_job<'a, F: Files>(
    alloc: Global,
    words: &'a [String],
    files: &mut F,
    job: Job,
) -> Result<Loaded, Complaint<'a>>
    requires some { 1 ≤ job.nue }
    requires most { job.nue ≤ 48 }
    requires seed { IsSeedInRange job.work }
    ensures { LoadsBy (work_plan (map string_bytes words.now) job job.work)
        (AsksFor (map string_bytes words.now) (F.seen files.old).told job)
        (F.seen files.old) (F.seen files.new) result }
{
    match job.work {
        Work::Script(at) => load_after(alloc, words, files, job, word_at(words, at)),
        Work::Gen(seed) => load_made(alloc, job, seed),
    }
}

// Makes the script of a number, and goes on with its text. No file is asked for.
fn load_made<'a>(alloc: Global, job: Job, seed: u32) -> Result<Loaded, Complaint<'a>>
    requires some { 1 ≤ job.nue }
    requires most { job.nue ≤ 48 }
    requires short { seed ≤ 65535 }
    ensures { (files : FilesView) → LoadsPlan (made_plan job.nue seed) (AsksMade seed job) files files result }
{
    match gen_script(alloc, job.nue, seed) {
        Ok(text) => read_made(alloc, job, seed, text.as_slice()),
        Err(_) => Err(Complaint::Memory),
    }
}

// Reads the script of a number. The reader refuses none.
fn read_made<'a>(alloc: Global, job: Job, seed: u32, text: &[u8]) -> Result<Loaded, Complaint<'a>>
    requires some { 1 ≤ job.nue }
    requires most { job.nue ≤ 48 }
    requires short { seed ≤ 65535 }
    requires made { text.now ≡ gen_text job.nue seed }
    ensures { (files : FilesView) → LoadsPlan (made_plan job.nue seed) (AsksMade seed job) files files result }
{
    match read_script(alloc, text, job.nue) {
        Ok(script) => Ok(with_setup(job, script, default_hosts(), Some(seed))),
        Err(ReadStop::Memory) => Err(Complaint::Memory),
        Err(ReadStop::Fault(_)) => unreachable!(),
    }
}

// Reads the host file, if there is one, and goes on with the hosts.
fn load_after<'a, F: Files>(
    alloc: Global,
    words: &'a [String],
    files: &mut F,
    job: Job,
    script: &'a str,
) -> Result<Loaded, Complaint<'a>>
    requires some { 1 ≤ job.nue }
    requires most { job.nue ≤ 48 }
    ensures { LoadsPlan (plan_after (map string_bytes words.now) job.nue (file_plan script.now job.nue) job.hosts)
        (AsksAfter (map string_bytes words.now) (F.seen files.old).told job job.hosts script.now) (F.seen files.old)
        (F.seen files.new) result }
{
    match job.hosts {
        Some(at) => load_hosts(alloc, files, job, word_at(words, at), script),
        None => load_script(alloc, files, job, script, default_hosts()),
    }
}

// Reads the host file, and goes on with its bytes.
fn load_hosts<'a, F: Files>(
    alloc: Global,
    files: &mut F,
    job: Job,
    list: &'a str,
    script: &'a str,
) -> Result<Loaded, Complaint<'a>>
    requires some { 1 ≤ job.nue }
    requires most { job.nue ≤ 48 }
    ensures { LoadsPlan (Reads list.now most_host_bytes (hosts_plan list.now job.nue (file_plan script.now job.nue)))
        (AsksListed list.now script.now (F.seen files.old).told job) (F.seen files.old) (F.seen files.new) result }
{
    match read_file(alloc, files, list, MOST_HOST_BYTES) {
        Ok(bytes) => load_listed(alloc, files, job, list, bytes.as_slice(), script),
        Err(complaint) => Err(complaint),
    }
}

// Reads the hosts, and goes on with the script's file.
fn load_listed<'a, F: Files>(
    alloc: Global,
    files: &mut F,
    job: Job,
    list: &'a str,
    bytes: &[u8],
    script: &'a str,
) -> Result<Loaded, Complaint<'a>>
    requires some { 1 ≤ job.nue }
    requires most { job.nue ≤ 48 }
    requires within { length bytes.now ≤ most_host_bytes }
    ensures { FileHolds (F.seen files.old).told list.now bytes.now
        → LoadsPlan (hosts_plan list.now job.nue (file_plan script.now job.nue) bytes.now)
        (AsksListed list.now script.now (F.seen files.old).told job) (F.seen files.old) (F.seen files.new) result }
{
    match read_hosts(bytes, job.nue) {
        Ok(hosts) => load_script(alloc, files, job, script, hosts),
        Err(fault) => Err(refused_hosts(list, fault)),
    }
}

// Reads the script's file.
fn load_script<'a, F: Files>(
    alloc: Global,
    files: &mut F,
    job: Job,
    script: &'a str,
    hosts: [CoreId; 48],
) -> Result<Loaded, Complaint<'a>>
    requires some { 1 ≤ job.nue }
    requires most { job.nue ≤ 48 }
    requires apart { AreApart job.nue hosts }
    ensures { LoadsPlan (file_plan script.now job.nue) (AsksOn script.now (F.seen files.old).told job hosts) (F.seen files.old)
        (F.seen files.new) result }
{
    match read_script_file(alloc, files, script, job.nue) {
        Ok(script) => Ok(with_setup(job, script, hosts, None)),
        Err(complaint) => Err(complaint),
    }
}

// The script with its setup on these hosts.
fn with_setup(job: Job, script: Scripts, hosts: [CoreId; 48], seed: Option<u32>) -> Loaded
    requires ranks { script.nue ≡ job.nue }
    requires apart { AreApart job.nue hosts }
    ensures job { result.job ≡ job }
    ensures script { result.script ≡ script }
    ensures setup { result.setup ≡ setup_by job hosts script }
    ensures seed { result.seed ≡ seed }
{
    let setup = script.setup(layout_of(job.bits), hosts);
    Loaded {
        job,
        script,
        setup,
        seed,
    }
}

fn layout_of(bits: bool) -> Layout
    ensures { result ≡ layout_by bits }
{
    if bits {
        Layout::bits()
    } else {
        Layout::lines()
    }
}

fn refused_hosts(list: &str, fault: HostFault) -> Complaint<'_>
    ensures { (program : List ℕ) → complaint_outcome program result ≡ file_refused program list.now fault.line (host_kind_name fault.kind) }
{
    Complaint::Refused {
        file: list,
        line: fault.line,
        kind: fault.kind.name(),
    }
}
