// The calls by their numbers, with arguments in the order of the judge's table, oracle/src/leaves.
use header_write::headers;
use header_write::headers::LegacyHeader;
use records::{LegacyFunctionHeader, ModernFunctionHeader};
use refusals::Refusal;
use test_frames::{Answer, HEAD, byte, flag, results, signed, word};

// The answer of a call. Its buffer is left as the function that it names leaves it.
pub fn answer_call(head: &[u8; HEAD], buffer: &mut [u8]) -> Option<Answer> {
    let answer = match test_frames::number(head) {
        1 => packed(head),
        2 => wrote(modern_header(head, buffer)),
        3 => wrote(legacy_header(head, buffer)),
        4 => wrote(header_write::patch_legacy_small_header_offset_size(
            buffer,
            word(head, 0),
            word(head, 1),
        )),
        5 => wrote(header_write::shift_modern_small_header_offset(buffer, signed(head, 0))),
        6 => wrote(header_write::shift_legacy_small_header_offsets(buffer, signed(head, 0))),
        7 => pointer(header_write::read_legacy_large_pointer(buffer)),
        8 => wrote(header_write::shift_legacy_large_pointer(buffer, signed(head, 0))),
        9 => pointer(header_write::read_modern_large_pointer(buffer)),
        10 => wrote(header_write::shift_modern_large_pointer(buffer, signed(head, 0))),
        11 => wrote(header_write::shift_u32_at(
            buffer,
            test_frames::long(head, 0) as usize,
            signed(head, 2),
        )),
        12 => legacy_fields(header_write::read_legacy_function_header(buffer)),
        13 => modern_fields(header_write::read_modern_function_header(buffer)),
        _ => return None,
    };
    Some(answer)
}

// A written record comes back as four words.
fn packed(head: &[u8; HEAD]) -> Answer {
    let record = header_write::write_function_header_legacy_small(LegacyFunctionHeader {
        offset: word(head, 0),
        param_count: word(head, 1),
        bytecode_size: word(head, 2),
        function_name: word(head, 3),
        info_offset: word(head, 4),
        frame_size: word(head, 5),
        environment_size: word(head, 6),
        highest_read_cache: word(head, 7),
        highest_write_cache: word(head, 8),
        flags: byte(head, 9),
    });
    Ok(results([
        bits::word(&record, 0) as u32,
        bits::word(&record, 4) as u32,
        bits::word(&record, 8) as u32,
        bits::word(&record, 12) as u32,
    ]))
}

fn modern_header(head: &[u8; HEAD], buffer: &mut [u8]) -> Result<(), Refusal> {
    headers::write_modern_header(
        buffer,
        word(head, 0),
        test_frames::hash(head, 1),
        word(head, 6),
        word(head, 7),
        word(head, 8),
        word(head, 9),
        word(head, 10),
    )
}

fn legacy_header(head: &[u8; HEAD], buffer: &mut [u8]) -> Result<(), Refusal> {
    let header = LegacyHeader {
        version: word(head, 0),
        source_hash: test_frames::hash(head, 1),
        file_length: word(head, 6),
        global_code_index: word(head, 7),
        function_count: word(head, 8),
        string_kind_count: word(head, 9),
        identifier_count: word(head, 10),
        string_count: word(head, 11),
        overflow_string_count: word(head, 12),
        string_storage_size: word(head, 13),
        has_bigint: flag(head, 14),
        big_int_count: word(head, 15),
        big_int_storage_size: word(head, 16),
        reg_exp_count: word(head, 17),
        reg_exp_storage_size: word(head, 18),
        array_buffer_size: word(head, 19),
        obj_key_buffer_size: word(head, 20),
        obj_value_buffer_size: word(head, 21),
        has_segment_id: flag(head, 22),
        segment_id: word(head, 23),
        cjs_module_count: word(head, 24),
        has_function_source: flag(head, 25),
        function_source_count: word(head, 26),
        debug_info_offset: word(head, 27),
        options: byte(head, 28),
    };
    headers::write_legacy_header(buffer, header)
}

fn wrote(answer: Result<(), Refusal>) -> Answer {
    answer.map(|()| results([]))
}

fn pointer(answer: Result<u32, Refusal>) -> Answer {
    answer.map(|at| results([at]))
}

fn legacy_fields(answer: Result<LegacyFunctionHeader, Refusal>) -> Answer {
    answer.map(|h| {
        [
            h.offset,
            h.param_count,
            h.bytecode_size,
            h.function_name,
            h.info_offset,
            h.frame_size,
            h.environment_size,
            h.highest_read_cache,
            h.highest_write_cache,
            h.flags as u32,
        ]
    })
}

fn modern_fields(answer: Result<ModernFunctionHeader, Refusal>) -> Answer {
    answer.map(|h| results([h.offset, h.bytecode_size, h.flags as u32]))
}
