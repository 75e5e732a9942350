//! The pages of tables.
ghost use Rattle.std.specs.Prelude.{◌≡◌, ◌+◌, ◌*◌, ◌<◌, ◌≤◌, [], ◌∷◌, ◌++◌, length, map, take, drop, All, replicate, IfOk};
ghost use Rattle.std.specs.List.{concat, slice_index};
ghost use Rattle.std.specs.Int.{w64, to_be_bytes};
ghost use Rattle.mas_types.specs.Fit.{IsSetting};
ghost use Rattle.mas_types.specs.Limits.{page_bytes, routes_most, wires_most};
ghost use Rattle.lay_bytes.specs.Slots.{job_slot, output_slot, owner_entry};
ghost use Rattle.ckpt_tables.specs.Shape.{page_count as page_count_lem, jobs_a_page, outputs_a_page, owners_a_page, HasShape};
ghost use Rattle.ckpt_tables.specs.Pages.{filled, part, page_of, Spell, classes_entry, setting_entry, line_entry, route_entry, header_pieces, node_pieces};
ghost use Rattle.ckpt_pages.specs.Writing.{Puts};

use ckpt_tables::{
    FIRST_JOB_PAGE, JOBS_A_PAGE, OUTPUTS_A_PAGE, OWNERS_A_PAGE, Tables, first_group_page,
    first_output_page, page_count,
};
use lay_bytes::{JobRec, OutRec, fill_fields, put, write_job, write_output, write_owner};
use mas_types::{Class, Level, LineCount, List, NoMemory, Owner, Page, Route, Setting};
use std::alloc::Global;

/// Writes the slot of a job over zeros: a free one is zeros, and stays.
fn put_job(job: &Option<JobRec>, at: usize, into: &mut [u8; 4096])
    requires room { at + 256 ≤ 4096 }
    requires zeros { take 256 (drop at into.old) ≡ replicate 256 0 }
    ensures written { into.new ≡ take at into.old ++ job_slot job.now ++ drop (at + 256) into.old }
    ensures size { length (job_slot job.now) ≡ 256 }
{
    if let Some(job) = job {
        write_job(job, &mut into[at..at + 256]);
    }
}

/// Writes the slots of jobs, one after another, over a page of zeros.
fn put_jobs(jobs: &[Option<JobRec>], into: &mut [u8; 4096])
    requires room { 256 * length jobs.now ≤ 4096 }
    requires zeros { into.old ≡ replicate page_bytes 0 }
    ensures { Puts (map job_slot jobs.now) 0 into.old into.new }
{
    let mut here = 0;
    for job in jobs {
        put_job(job, here, into);
        here += 256;
    }
}

/// Writes the slot of an output over zeros: a free one is zeros, and stays.
fn put_output(output: &Option<OutRec>, at: usize, into: &mut [u8; 4096])
    requires room { at + 128 ≤ 4096 }
    requires zeros { take 128 (drop at into.old) ≡ replicate 128 0 }
    ensures written { into.new ≡ take at into.old ++ output_slot output.now ++ drop (at + 128) into.old }
    ensures size { length (output_slot output.now) ≡ 128 }
{
    if let Some(output) = output {
        write_output(output, &mut into[at..at + 128]);
    }
}

/// Writes the slots of outputs, one after another, over a page of zeros.
fn put_outputs(outputs: &[Option<OutRec>], into: &mut [u8; 4096])
    requires room { 128 * length outputs.now ≤ 4096 }
    requires zeros { into.old ≡ replicate page_bytes 0 }
    ensures { Puts (map output_slot outputs.now) 0 into.old into.new }
{
    let mut here = 0;
    for output in outputs {
        put_output(output, here, into);
        here += 128;
    }
}

/// Writes the entry of a group over zeros: that of a free one is zeros, and stays.
fn put_owner(owner: &Owner, at: usize, into: &mut [u8; 4096])
    requires room { at + 8 ≤ 4096 }
    requires zeros { take 8 (drop at into.old) ≡ replicate 8 0 }
    ensures written { into.new ≡ take at into.old ++ owner_entry owner.now ++ drop (at + 8) into.old }
    ensures size { length (owner_entry owner.now) ≡ 8 }
{
    match owner {
        Owner::Free => {}
        _ => write_owner(owner, &mut into[at..at + 8]),
    }
}

/// Writes the entries of groups, one after another, over a page of zeros.
fn put_owners(owners: &[Owner], into: &mut [u8; 4096])
    requires room { 8 * length owners.now ≤ 4096 }
    requires zeros { into.old ≡ replicate page_bytes 0 }
    ensures { Puts (map owner_entry owners.now) 0 into.old into.new }
{
    let mut here = 0;
    for owner in owners {
        put_owner(owner, here, into);
        here += 8;
    }
}

/// Writes levels from an offset on.
fn put_levels(levels: &[Level], at: usize, into: &mut [u8; 4096])
    requires { at + 8 * length levels.now ≤ 4096 }
    ensures { Puts (map (to_be_bytes w64) levels.now) at into.old into.new }
{
    let mut here = at;
    for level in levels {
        put(&level.to_be_bytes(), here, into);
        here += 8;
    }
}

/// Classes as 37 bytes.
fn classes_bytes(classes: &List<Class>) -> [u8; 37]
    requires { length classes.now ≤ 36 }
    ensures { result ≡ classes_entry classes.now }
{
    let mut bytes = [0; 37];
    bytes[0] = classes.len() as u8;
    let mut at = 1;
    for class in classes.as_slice() {
        bytes[at] = class.0;
        at += 1;
    }
    bytes
}

/// A member's entry.
fn setting_bytes(setting: &Setting) -> [u8; 128]
    requires init { length setting.now.init ≤ 36 }
    requires prt { length setting.now.prt ≤ 36 }
    ensures { result ≡ setting_entry setting.now }
{
    let mut entry = [0; 128];
    fill_fields(
        &[
            &[1],
            &classes_bytes(&setting.init),
            &classes_bytes(&setting.prt),
            &setting.forms.0,
            &setting.lines.to_be_bytes(),
            &[0; 43],
        ],
        &mut entry,
    );
    entry
}

/// Writes the entries of members from an offset on.
fn put_settings(settings: &[Setting], at: usize, into: &mut [u8; 4096])
    requires room { at + 128 * length settings.now ≤ 4096 }
    requires fit { All IsSetting settings.now }
    ensures { Puts (map setting_entry settings.now) at into.old into.new }
{
    let mut here = at;
    for setting in settings {
        put(&setting_bytes(setting), here, into);
        here += 128;
    }
}

/// A line's entry.
fn line_bytes(line: &LineCount) -> [u8; 16]
    ensures { result ≡ line_entry line.now }
{
    let mut entry = [0; 16];
    fill_fields(
        &[
            &line.sent.to_be_bytes(),
            &line.got.to_be_bytes(),
            &line.current.0.to_be_bytes(),
            &[0; 4],
        ],
        &mut entry,
    );
    entry
}

/// Writes the entries of lines from an offset on.
fn put_lines(lines: &[LineCount], at: usize, into: &mut [u8; 4096])
    requires { at + 16 * length lines.now ≤ 4096 }
    ensures { Puts (map line_entry lines.now) at into.old into.new }
{
    let mut here = at;
    for line in lines {
        put(&line_bytes(line), here, into);
        here += 16;
    }
}

/// A route's entry.
fn route_bytes(route: &Route) -> [u8; 16]
    ensures { result ≡ route_entry route.now }
{
    let mut entry = [0; 16];
    fill_fields(&[&route.name.0, &[route.line], &[0; 7]], &mut entry);
    entry
}

/// Writes the entries of routes from an offset on.
fn put_routes(routes: &[Route], at: usize, into: &mut [u8; 4096])
    requires { at + 16 * length routes.now ≤ 4096 }
    ensures { Puts (map route_entry routes.now) at into.old into.new }
{
    let mut here = at;
    for route in routes {
        put(&route_bytes(route), here, into);
        here += 16;
    }
}

/// The first bytes of page 0.
fn header_bytes(tables: &Tables, level: Level) -> [u8; 1024]
    ensures { result ≡ concat (header_pieces tables.now level) }
{
    let config = &tables.config;
    let mut header = [0; 1024];
    fill_fields(
        &[
            b"MASCKPT1",
            &level.to_be_bytes(),
            &[1],
            &[config.members],
            &[config.volumes],
            &[0],
            &config.jobs.to_be_bytes(),
            &config.outputs.to_be_bytes(),
            &config.groups.to_be_bytes(),
            &config.hold.to_be_bytes(),
            &config.dormancy.to_be_bytes(),
            &[0; 2],
            &tables.last.0.to_be_bytes(),
            &[0; 4],
            &tables.order.to_be_bytes(),
            &[0; 976],
        ],
        &mut header,
    );
    header
}

/// The first bytes of page 2.
fn node_bytes(tables: &Tables) -> [u8; 128]
    requires { length tables.now.routes ≤ routes_most }
    ensures { result ≡ concat (node_pieces tables.now) }
{
    let mut node = [0; 128];
    fill_fields(
        &[
            &tables.config.node.0,
            &[tables.routes.len() as u8],
            &[0; 119],
        ],
        &mut node,
    );
    node
}

fn put_page_0(tables: &Tables, levels: &List<Level>, into: &mut [u8; 4096])
    requires some { 1 ≤ length levels.now }
    requires few { length levels.now ≤ 384 }
    requires zeros { into.old ≡ replicate page_bytes 0 }
    ensures { into.new ≡ filled (concat (header_pieces tables.now (slice_index levels.now 0))
        ∷ map (to_be_bytes w64) levels.now) }
{
    put(&header_bytes(tables, *levels.item(0)), 0, into);
    put_levels(levels.as_slice(), 1024, into);
}

fn put_page_1(tables: &Tables, into: &mut [u8; 4096])
    requires few { length tables.now.members ≤ 8 }
    requires fit { All IsSetting tables.now.members }
    requires zeros { into.old ≡ replicate page_bytes 0 }
    ensures { into.new ≡ filled (map setting_entry tables.now.members) }
{
    put_settings(tables.members.as_slice(), 0, into);
}

fn put_page_2(tables: &Tables, into: &mut [u8; 4096])
    requires routes { length tables.now.routes ≤ routes_most }
    requires lines { length tables.now.lines ≡ wires_most }
    requires zeros { into.old ≡ replicate page_bytes 0 }
    ensures { into.new ≡ filled (concat (node_pieces tables.now)
        ∷ (map line_entry tables.now.lines ++ (replicate 768 0 ∷ map route_entry tables.now.routes))) }
{
    put(&node_bytes(tables), 0, into);
    put_lines(tables.lines.as_slice(), 128, into);
    put_routes(tables.routes.as_slice(), 1024, into);
}

/// Writes a page of the tables, all its bytes. There is one level for each page; that of page 0 is
/// the level of the checkpoint.
pub fn encode_page(tables: &Tables, page: u16, levels: &List<Level>, into: &mut Page)
    requires shape { HasShape tables.now }
    requires page { page < page_count_lem tables.now.config }
    requires levels { length levels.now ≡ page_count_lem tables.now.config }
    ensures spelled { into.new.0 ≡ page_of tables.now levels.now page }
    ensures sized { length into.new.0 ≡ page_bytes }
{
    into.0 = [0; 4096];
    let first_output = first_output_page(&tables.config);
    let first_group = first_group_page(&tables.config);
    if page == 0 {
        put_page_0(tables, levels, &mut into.0);
    } else if page == 1 {
        put_page_1(tables, &mut into.0);
    } else if page == 2 {
        put_page_2(tables, &mut into.0);
    } else if page < first_output {
        put_job_page(
            tables.jobs.as_slice(),
            (page - FIRST_JOB_PAGE) as usize,
            &mut into.0,
        );
    } else if page < first_group {
        put_output_page(
            tables.outputs.as_slice(),
            (page - first_output) as usize,
            &mut into.0,
        );
    } else {
        put_owner_page(
            tables.owners.as_slice(),
            (page - first_group) as usize,
            &mut into.0,
        );
    }
}

/// All pages of the tables, in order, under the same conditions. NoMemory comes only when out of memory.
pub fn encode(alloc: Global, tables: &Tables, levels: &List<Level>) -> Result<List<Page>, NoMemory>
    requires shape { HasShape tables.now }
    requires levels { length levels.now ≡ page_count_lem tables.now.config }
    ensures spelled { IfOk result (λ pages. Spell tables.now levels.now pages) }
    ensures sized { IfOk result (λ pages. All (λ page. length page.0 ≡ page_bytes) pages) }
{
    let mut pages = List::new(alloc);
    for number in 0..page_count(&tables.config) {
        let mut page = Page([0; 4096]);
        encode_page(tables, number, levels, &mut page);
        pages.push(page)?;
    }
    Ok(pages)
}

fn put_job_page(jobs: &[Option<JobRec>], page: usize, into: &mut [u8; 4096])
    requires room { jobs_a_page * page + jobs_a_page ≤ length jobs.now }
    requires zeros { into.old ≡ replicate page_bytes 0 }
    ensures { into.new ≡ filled (map job_slot (part jobs_a_page page jobs.now)) }
{
    let first = JOBS_A_PAGE * page;
    put_jobs(&jobs[first..first + JOBS_A_PAGE], into);
}

fn put_output_page(outputs: &[Option<OutRec>], page: usize, into: &mut [u8; 4096])
    requires room { outputs_a_page * page + outputs_a_page ≤ length outputs.now }
    requires zeros { into.old ≡ replicate page_bytes 0 }
    ensures { into.new ≡ filled (map output_slot (part outputs_a_page page outputs.now)) }
{
    let first = OUTPUTS_A_PAGE * page;
    put_outputs(&outputs[first..first + OUTPUTS_A_PAGE], into);
}

fn put_owner_page(owners: &[Owner], page: usize, into: &mut [u8; 4096])
    requires room { owners_a_page * page < length owners.now }
    requires zeros { into.old ≡ replicate page_bytes 0 }
    ensures { into.new ≡ filled (map owner_entry (part owners_a_page page owners.now)) }
{
    let rest = &owners[OWNERS_A_PAGE * page..];
    let count = rest.len().min(OWNERS_A_PAGE);
    put_owners(&rest[..count], into);
}
