//! The numbers that C reads, as lib/include/pageshare.h and lib/include/pageshare_host.h have them.
ghost use Rattle.std.specs.Prelude.{◌≡◌};
ghost use Rattle.c_surface.specs.declared.status.TheConstants as status;

/// Each status is this number.
pub fn numbers_law()
    ensures ok { status.OK ≡ 0 }
    ensures frames { status.FRAMES ≡ 1 }
    ensures guests { status.GUESTS ≡ 2 }
    ensures pages { status.PAGES ≡ 3 }
    ensures memory { status.MEMORY ≡ 4 }
    ensures in_use { status.IN_USE ≡ 5 }
    ensures no_machine { status.NO_MACHINE ≡ 6 }
    ensures no_guest { status.NO_GUEST ≡ 7 }
    ensures full { status.FULL ≡ 8 }
    ensures length { status.LENGTH ≡ 9 }
    ensures crosses { status.CROSSES ≡ 10 }
    ensures no_page { status.NO_PAGE ≡ 11 }
    ensures unmapped { status.UNMAPPED ≡ 12 }
    ensures region { status.REGION ≡ 13 }
    ensures hash { status.HASH ≡ 14 }
    ensures machines { status.MACHINES ≡ 16 }
    ensures slots { status.SLOTS ≡ 17 }
    ensures clients { status.CLIENTS ≡ 18 }
    ensures recent { status.RECENT ≡ 19 }
    ensures no_room { status.NO_ROOM ≡ 20 }
    ensures no_client { status.NO_CLIENT ≡ 21 }
    ensures no_slot { status.NO_SLOT ≡ 22 }
    ensures no_frame { status.NO_FRAME ≡ 23 }
    ensures not_its_slot { status.NOT_ITS_SLOT ≡ 24 }
    ensures no_session { status.NO_SESSION ≡ 32 }
    ensures short { status.SHORT ≡ 33 }
    ensures fault_head { status.FAULT_HEAD ≡ 64 }
    ensures fault_kind { status.FAULT_KIND ≡ 65 }
    ensures fault_version { status.FAULT_VERSION ≡ 66 }
    ensures fault_count { status.FAULT_COUNT ≡ 67 }
    ensures fault_length { status.FAULT_LENGTH ≡ 68 }
    ensures fault_early { status.FAULT_EARLY ≡ 69 }
    ensures fault_again { status.FAULT_AGAIN ≡ 70 }
    ensures fault_pages { status.FAULT_PAGES ≡ 71 }
    ensures fault_clients { status.FAULT_CLIENTS ≡ 72 }
    ensures fault_answer { status.FAULT_ANSWER ≡ 73 }
{}
