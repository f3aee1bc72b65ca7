//! The plans of the runs.

/// Plans of eight senders.
pub const PLANS: [&str; 11] = [
    // short rings, a queue that stops, no bypass
    "senders = 8\nirq_every = 8\n[[station]]\nlen = 4\nburst = 3\nbypass = false\n",
    // a device that is busy
    "senders = 8\nirq_every = 16\n[[station]]\nlen = 8\nburst = 5\nbusy_every = 3\nbusy_limit = 4000\n",
    // a device that hangs
    "senders = 8\nirq_every = 4\n[[station]]\nlen = 8\nburst = 7\nhang_after = 300\n",
    // the rings' length changes
    "senders = 8\nirq_every = 4\n[[station]]\nlen = 16\nmax_len = 64\nburst = 4\n[[event]]\nbefore = 80\nkind = \"resize\"\nstation = 0\nlen = 1\n[[event]]\nbefore = 160\nkind = \"resize\"\nstation = 0\nlen = 64\n[[event]]\nbefore = 240\nkind = \"resize\"\nstation = 0\nlen = 3\n[[event]]\nbefore = 320\nkind = \"resize\"\nstation = 0\nlen = 7\n",
    // the station is deactivated and activated
    "senders = 8\nirq_every = 4\n[[station]]\nlen = 8\nburst = 4\n[[event]]\nbefore = 80\nkind = \"down\"\nstation = 0\n[[event]]\nbefore = 120\nkind = \"up\"\nstation = 0\n[[event]]\nbefore = 200\nkind = \"tx_queue_len\"\nstation = 0\nlen = 2\n[[event]]\nbefore = 280\nkind = \"down\"\nstation = 0\n[[event]]\nbefore = 300\nkind = \"up\"\nstation = 0\n",
    // two stations of either kind
    "senders = 8\nirq_every = 8\n[[station]]\nlen = 2\nburst = 2\nbusy_every = 4\nbusy_limit = 100\n[[station]]\nlen = 6\nmax_len = 12\nburst = 9\n[[event]]\nbefore = 100\nkind = \"resize\"\nstation = 1\nlen = 12\n[[event]]\nbefore = 200\nkind = \"down\"\nstation = 0\n[[event]]\nbefore = 260\nkind = \"up\"\nstation = 0\n",
    // devices are swapped, some of which hang
    "senders = 8\nirq_every = 4\n[[station]]\nlen = 8\nburst = 4\nhang_after = 60\n[[event]]\nbefore = 100\nkind = \"swap\"\nstation = 0\nhang_after = 40\n[[event]]\nbefore = 200\nkind = \"swap\"\nstation = 0\nbusy_every = 3\nbusy_limit = 50\n[[event]]\nbefore = 300\nkind = \"swap\"\nstation = 0\nburst = 9\n",
    // three queues share the rings
    "version = 2\nsenders = 8\nirq_every = 4\n[[station]]\nlen = 8\nmax_len = 32\nqueues = 3\nburst = 4\nbusy_every = 5\nbusy_limit = 100\n[[event]]\nbefore = 100\nkind = \"down\"\nstation = 0\n[[event]]\nbefore = 130\nkind = \"up\"\nstation = 0\n[[event]]\nbefore = 200\nkind = \"resize\"\nstation = 0\nlen = 32\n[[event]]\nbefore = 300\nkind = \"swap\"\nstation = 0\nburst = 5\nhang_after = 60\n",
    // the children of a root with four queues: they are busy, and its events are done to each of them
    "version = 3\nsenders = 8\nirq_every = 4\n[[station]]\nlen = 8\nmax_len = 16\nmq = 4\nburst = 4\nbusy_every = 5\nbusy_limit = 100\n[[event]]\nbefore = 80\nkind = \"resize\"\nstation = 0\nlen = 2\n[[event]]\nbefore = 120\nkind = \"down\"\nstation = 0\n[[event]]\nbefore = 160\nkind = \"up\"\nstation = 0\n[[event]]\nbefore = 240\nkind = \"tx_queue_len\"\nstation = 0\nlen = 3\n[[event]]\nbefore = 300\nkind = \"resize\"\nstation = 0\nlen = 16\n",
    // two roots, whose devices hang or stop, and between them a station whose device is swapped
    "version = 3\nsenders = 8\nirq_every = 4\n[[station]]\nlen = 4\nmq = 2\nburst = 3\nhang_after = 60\n[[station]]\nlen = 8\nburst = 4\n[[station]]\nlen = 4\nmax_len = 8\nmq = 5\nburst = 2\n[[event]]\nbefore = 80\nkind = \"down\"\nstation = 0\n[[event]]\nbefore = 120\nkind = \"up\"\nstation = 0\n[[event]]\nbefore = 200\nkind = \"swap\"\nstation = 1\nburst = 5\nhang_after = 30\n[[event]]\nbefore = 240\nkind = \"resize\"\nstation = 2\nlen = 8\n[[event]]\nbefore = 320\nkind = \"down\"\nstation = 2\n",
    // queues are opened by the capture's time, once or twice after each packet; children and senders are chosen by flow
    "version = 4\nsenders = 8\nsplit = \"flow\"\nspread = \"flow\"\nirq_us = 700\n[[station]]\nlen = 4\nmq = 4\nburst = 2\nbusy_every = 5\nbusy_limit = 100\n[[event]]\nbefore = 100\nkind = \"down\"\nstation = 0\n[[event]]\nbefore = 140\nkind = \"up\"\nstation = 0\n",
];
